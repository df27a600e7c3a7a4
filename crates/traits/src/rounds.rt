//! Questions are asked in rounds, until all goals that they want are known.
ghost use Rattle.std.specs.Prelude.{◌≡◌, ◌&&◌, nat_le, true, length, IfOk};
ghost use Rattle.trait_answers.specs.Answered.{CanBeTold};
ghost use Rattle.trait_answers.specs.Asking.{known_by};
ghost use Rattle.traits.specs.Right.{AreAnsweredAt, AreRight, IsAnswered, IsRight};

use delegate_parts::Lends;
use search_context::context::NoMemory;
use std::alloc::Global;
use trait_answers::Answers;
use trait_goals::{Goals, make_known};
use trait_pages::Came;

/// What the questions came to.
#[derive(Drop)]
pub(crate) struct Round {
    /// What each question came to, in order.
    pub(crate) came: Vec<Came>,
    /// The goals without known candidates that were worked out.
    pub(crate) wanted: Vec<usize>,
}

/// How many rounds there are at most. What is wanted after the last one stays unknown.
const ROUNDS: usize = 64;

/// Once there are so many goals, and so many more for each that is asked, no more become known. That bounds time and memory where
/// types grow, and a text that says so much gets as far as it goes.
const MOST: usize = 1 << 20;

const MORE: usize = 16;

// Asks a goal.
fn ask<L: Lends<Goals>>(answers: &mut Answers<L>, goal: usize, depth: usize) -> Came
    ensures right { IsRight (known_by L.lent_by answers.old) goal result }
    ensures told { answers.old.had_depth ≡ true → CanBeTold (known_by L.lent_by answers.old) goal depth →
        IsAnswered (known_by L.lent_by answers.old) goal result }
    ensures deep { answers.new.had_depth ≡ (answers.old.had_depth
        && nat_le (length (known_by L.lent_by answers.old).asked) depth) }
    ensures same_goals { known_by L.lent_by answers.new ≡ known_by L.lent_by answers.old }
{
    let answered = answers.implements(goal, depth)?;
    Ok(answered.outcome)
}

// Asks each of these goals.
fn ask_all<L: Lends<Goals>>(
    alloc: Global,
    lender: L,
    count: usize,
    asked: &[usize],
    depth: usize,
) -> Result<Round, NoMemory>
    ensures right { IfOk result (λ round. AreRight (L.lent_by lender) asked.now round.came.items) }
    ensures told { IfOk result (λ round.
        AreAnsweredAt depth (L.lent_by lender) asked.now round.came.items) }
    ensures count { IfOk result (λ round. length round.came.items ≡ length asked.now) }
{
    let mut answers = Answers::<L>::new(alloc, lender);
    let mut came = Vec::with_capacity(alloc, asked.len())?;
    for goal in asked {
        let answer = ask(&mut answers, *goal, depth);
        came.push(answer)?;
    }
    let wanted = find_wanted(alloc, &answers, count)?;
    Ok(Round { came, wanted })
}

// The goals, of so many, that were worked out, and whose candidates are not known.
fn find_wanted<L: Lends<Goals>>(
    alloc: Global,
    answers: &Answers<L>,
    count: usize,
) -> Result<Vec<usize>, NoMemory> {
    let mut wanted = Vec::new(alloc);
    for goal in 0..count {
        if answers.was_wanted(goal) {
            wanted.push(goal)?;
        }
    }
    Ok(wanted)
}

/// Asks the questions of these goals at this depth, over and over, until no goal is wanted that is not known, or there are so many
/// goals that no more become known. Where all goals are decided then, and are no more than the depth, each question has a yes or a
/// no, unless memory was out.
pub(crate) fn ask_in_rounds(
    alloc: Global,
    goals: &mut Goals,
    asked: &[usize],
    depth: usize,
) -> Result<Round, NoMemory>
    ensures right { IfOk result (λ round. AreRight goals.old asked.now round.came.items) }
    ensures told { IfOk result (λ round. AreAnsweredAt depth goals.new asked.now round.came.items) }
    ensures count { IfOk result (λ round. length round.came.items ≡ length asked.now) }
{
    let most = MOST.saturating_add(asked.len().saturating_mul(MORE));
    make_known(alloc, goals, asked, depth, most)?;
    let mut round = ask_all::<&Goals>(alloc, &*goals, goals.len(), asked, depth)?;
    for _ in 0..ROUNDS {
        if round.wanted.is_empty() || goals.len() >= most {
            break;
        }
        make_known(alloc, goals, round.wanted.as_slice(), depth, most)?;
        round = ask_all::<&Goals>(alloc, &*goals, goals.len(), asked, depth)?;
    }
    Ok(round)
}
