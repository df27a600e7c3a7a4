//! Why questions come to maybe.

use search_context::path::PathKind;
use shown_graphs::{Cause, causes_within};
use std::alloc::Global;
use trait_goals::{Candidate, Goals};
use trait_pages::{Stop, write_table};

/// Why each of these goals came to maybe at this depth, as far as that is seen. They are asked anew, and watched, unless only the
/// depth can have cut them off; for that, no goal may have been wanted that is not known.
pub(crate) fn causes_of(
    alloc: Global,
    goals: &Goals,
    unsure: &[usize],
    depth: usize,
    is_all_known: bool,
) -> Result<Vec<Option<Cause>>, Stop> {
    if unsure.is_empty() {
        return Ok(Vec::new(alloc));
    }
    if is_all_known && Crossings::of(goals).leave_cycles_plain() {
        let cause = Some(Cause::Depth { or_runs: false });
        return Ok(vec![in alloc; cause; unsure.len()]?);
    }
    let text = write_table(alloc, goals, &[], unsure, depth)?;
    let causes = causes_within::<8>(alloc, text.as_slice())?;
    Ok(causes)
}

/// Steps from goals of one kind to goals of another one.
#[derive(Clone, Copy)]
struct Crossings {
    from_inductive: bool,
    from_coinductive: bool,
    /// A step is of another kind.
    has_others: bool,
}

impl Crossings {
    // Those of all known goals.
    fn of(goals: &Goals) -> Crossings {
        let mut crossings = Crossings {
            from_inductive: false,
            from_coinductive: false,
            has_others: false,
        };
        for goal in 0..goals.len() {
            crossings.add_goal(goals, goal);
        }
        crossings
    }

    // Whether each cycle has steps of one kind alone, and that is inductive or coinductive.
    //
    // Then no goal comes to its most runs. Where its first run takes a yes of each cycle for granted and comes to no, the next one
    // takes a no for granted, and cannot come to yes; with no first it is the other way round; and a maybe ends its runs. Nor is a
    // cycle answered maybe. So a limit that is met is that on depth.
    fn leave_cycles_plain(self) -> bool {
        !self.has_others && !(self.from_inductive && self.from_coinductive)
    }

    fn add_goal(&mut self, goals: &Goals, goal: usize) {
        let Some(known) = goals.candidates(goal) else {
            return;
        };
        let kind = goals.kind(goal);
        for candidate in known.all.iter() {
            self.add(goals, kind, candidate);
        }
    }

    fn add(&mut self, goals: &Goals, kind: PathKind, candidate: &Candidate) {
        for question in candidate.questions.iter() {
            match (kind, goals.kind(*question)) {
                (PathKind::Inductive, PathKind::Inductive)
                | (PathKind::Coinductive, PathKind::Coinductive) => {}
                (PathKind::Inductive, PathKind::Coinductive) => self.from_inductive = true,
                (PathKind::Coinductive, PathKind::Inductive) => self.from_coinductive = true,
                _ => self.has_others = true,
            }
        }
    }
}
