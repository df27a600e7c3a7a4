//! Tables that change as a delegate.
ghost use Rattle.std.specs.Prelude.{◌≡◌};
ghost use Rattle.std.proofs.Common.{rules};

use crate::table::OpenTable;
use candidate_lists::{CandidateLists, CandidatesDelegate};
use delegate_parts::Lends;
use rule_tables::Goal;
use search_context::path::PathKind;

/// The rules of the table that is lent.
#[derive(Clone, Copy)]
pub struct OpenRules<L> {
    pub lender: L,
}

/// The delegate of such rules. A goal has eight runs at most, and the provisional cache may be used.
pub type OpenDelegate<L> = CandidatesDelegate<OpenRules<L>, 8, 1>;

impl<L: Lends<OpenTable>> CandidateLists for OpenRules<L> {
    ghost use Rattle.rule_tables.specs.Rules.{question_of};
    ghost use Rattle.rule_tables.specs.declared.rules.Asking as asking;
    ghost use Rattle.open_tables.specs.Table.{candidates_of, most_steps};

    type Input = Goal;

    ghost Asking = { asking.Asking };

    ghost question_of = { question_of };

    ghost candidates_of = { λ rules goal. candidates_of (L.lent_by rules.lender) goal };

    ghost most = { λ rules. most_steps (L.lent_by rules.lender) };

    ghost same_input = { Prim.search rules };

    fn mark(self, goal: Goal, candidate: usize) -> Option<bool> {
        self.lender.lent().mark(goal, candidate)
    }

    fn question(self, goal: Goal, candidate: usize, place: usize) -> Option<(PathKind, Goal)> {
        self.lender.lent().question(goal, candidate, place)
    }
}
