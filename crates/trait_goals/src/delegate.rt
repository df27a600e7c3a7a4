//! Goals of traits as a delegate.
ghost use Rattle.std.specs.Prelude.{◌≡◌};
ghost use Rattle.trait_goals.specs.Rule.{candidates_of, most_steps};

use crate::goals::Goals;
use candidate_lists::{CandidateLists, CandidatesDelegate};
use delegate_parts::Lends;
use search_context::path::PathKind;

/// The goals that are lent, each by its number.
#[derive(Clone, Copy)]
pub struct GoalsOf<L> {
    pub lender: L,
}

/// The delegate of goals of traits, which has eight runs of a goal and the provisional cache.
pub type GoalsDelegate<L> = CandidatesDelegate<GoalsOf<L>, 8, 1>;

// Each known candidate asks its goals by the kind of the trait. A goal whose candidates are not
// known has one, which asks the goal itself by forced ambiguity, and so says maybe. A number that is
// no goal's has none.
impl<L: Lends<Goals>> CandidateLists for GoalsOf<L> {
    ghost use Rattle.std.proofs.Common.{rules};
    ghost use Rattle.std.specs.Prelude.{ℕ};
    ghost use Rattle.search_context.specs.Question.{Question};

    type Input = usize;

    ghost Asking = { Question ℕ };

    ghost question_of = { λ asked. asked };

    ghost candidates_of = { λ goals number. candidates_of (L.lent_by goals.lender) number };

    ghost most = { λ goals. most_steps (L.lent_by goals.lender) };

    ghost same_input = { Prim.search rules };

    fn mark(self, goal: usize, candidate: usize) -> Option<bool> {
        let goals = self.lender.lent();
        match goals.candidates(goal) {
            Some(known) => {
                let _candidate = known.all.get(candidate)?;
                Some(false)
            }
            None if candidate == 0 => {
                let _asked = goals.asked(goal)?;
                Some(false)
            }
            None => None,
        }
    }

    fn question(self, goal: usize, candidate: usize, place: usize) -> Option<(PathKind, usize)> {
        let goals = self.lender.lent();
        match goals.candidates(goal) {
            Some(known) => {
                let candidate = known.all.get(candidate)?;
                let asked = candidate.questions.get(place)?;
                Some((goals.kind(goal), *asked))
            }
            None if candidate == 0 && place == 0 => {
                let _asked = goals.asked(goal)?;
                Some((PathKind::ForcedAmbiguity, goal))
            }
            None => None,
        }
    }
}
