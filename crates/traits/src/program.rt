//! What the program does with what was declared.
ghost use Rattle.std.specs.Prelude.{IfOk};
ghost use Rattle.traits.specs.True.{AreTrue};

mod answering;

use crate::rounds::ask_in_rounds;
pub(crate) use answering::answer;
use shown_graphs::{Form, NoProgress, show_text};
use std::alloc::Global;
use std::io::Write;
use trait_goals::Goals;
use trait_pages::{Came, Names, Stop, all_goals, write_names, write_table};
use trait_texts::{Declarations, Spelling};

/// What the texts ask, with the goals that are known of it, and what it came to.
#[derive(Drop)]
pub(crate) struct Answered<'a> {
    goals: Goals,
    spelling: Spelling<'a>,
    /// The goals of the questions, in order.
    asked: Vec<usize>,
    depth: usize,
    came: Vec<Came>,
    /// No goal was wanted at the end that is not known.
    is_all_known: bool,
}

impl<'a> Answered<'a> {
    // What goals are called, as answers call them, or as questions that can be read.
    fn names(&self, are_full: bool) -> Names<'_, 'a> {
        Names {
            goals: &self.goals,
            spelling: &self.spelling,
            are_full,
        }
    }
}

/// Answers the questions of what was declared.
pub(crate) fn ask_declared<'a>(
    alloc: Global,
    declared: Declarations<'a>,
) -> Result<Answered<'a>, Stop>
    ensures { IfOk result (λ answered. AreTrue declared.entry.rules declared.entry.terms declared.entry.questions.items
        answered.came.items) }
{
    let Declarations {
        rules,
        terms,
        questions,
        depth,
        spelling,
        ..
    } = declared;
    let mut goals = Goals::new(alloc, rules, terms);
    let asked = all_goals(alloc, &mut goals, questions.as_slice())?;
    let round = ask_in_rounds(alloc, &mut goals, asked.as_slice(), depth)?;
    Ok(Answered {
        goals,
        spelling,
        asked,
        depth,
        is_all_known: round.wanted.is_empty(),
        came: round.came,
    })
}

/// Shows in this form how each question is answered. Whether none met a fault.
pub(crate) fn show<W: Write>(
    alloc: Global,
    answered: &Answered<'_>,
    form: Form,
    out: &mut W,
) -> Result<bool, Stop> {
    let goals = &answered.goals;
    let asked = answered.asked.as_slice();
    let text = write_table(alloc, goals, &[], asked, answered.depth)?;
    let text = text.as_slice();
    let labels = match form {
        Form::Data => {
            let names = answered.names(true).all(alloc)?;
            out.write_all(write_names(alloc, names.as_slice())?.as_slice())?;
            Vec::new(alloc)
        }
        Form::Text { .. } | Form::Dot => answered.names(false).labels(alloc)?,
    };
    let labels = labels.as_slice();
    let is_well = show_text::<8, W, NoProgress>(alloc, form, text, labels, out, NoProgress)?;
    Ok(is_well)
}

/// Writes the goals with their rules as a table of rules, which asks what the texts ask.
pub(crate) fn tell_rules<W: Write>(
    alloc: Global,
    answered: &Answered<'_>,
    out: &mut W,
) -> Result<bool, Stop> {
    let goals = &answered.goals;
    let labels = answered.names(false).all(alloc)?;
    let asked = answered.asked.as_slice();
    let text = write_table(alloc, goals, labels.as_slice(), asked, answered.depth)?;
    out.write_all(text.as_slice())?;
    out.flush()?;
    Ok(true)
}
