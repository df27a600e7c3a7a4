//! What texts declare and ask.
ghost use Rattle.std.specs.Prelude.{IfOk};
ghost use Rattle.trait_goals.specs.Trying.{Extends};
ghost use Rattle.trait_pages.specs.Asked.{AreGoalsOf};

use crate::stop::Stop;
use search_context::context::NoMemory;
use std::alloc::Global;
use trait_goals::{Asked, Goals};
use trait_texts::{Declarations, Options, Question, ReadFault, Source, read};

/// What the texts declare. Where one of them is refused, the reason has its line and its word.
pub fn declared_in<'a>(
    alloc: Global,
    sources: &[Source<'a>],
    options: Options,
) -> Result<Declarations<'a>, Stop> {
    match read(alloc, sources, options) {
        Ok(declared) => Ok(declared),
        Err(ReadFault::Memory) => Err(Stop::Memory),
        Err(ReadFault::Refused(refusal)) => {
            let mut reason = Vec::new(alloc);
            refusal.write(alloc, &mut reason)?;
            Err(Stop::Refused(reason))
        }
    }
}

/// The goals of the questions, in order.
pub fn all_goals(
    alloc: Global,
    goals: &mut Goals,
    questions: &[Question],
) -> Result<Vec<usize>, NoMemory>
    ensures extends { Extends goals.old goals.new }
    ensures asked { IfOk result (λ numbers.
        AreGoalsOf goals.old.made goals.new questions.now numbers.items) }
{
    let mut asked = Vec::with_capacity(alloc, questions.len())?;
    // Rules ask some goals more.
    goals.reserve(questions.len().saturating_add(questions.len() / 8))?;
    for question in questions {
        let goal = goals.goal(Asked {
            subject: question.subject,
            bound: question.bound,
        })?;
        asked.push(goal.unwrap_or(usize::MAX))?; // there is one
    }
    Ok(asked)
}
