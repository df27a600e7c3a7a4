//! Tables of rules as a delegate.
ghost use Rattle.std.specs.Prelude.{◌≡◌};
ghost use Rattle.std.proofs.Common.{rules};

use crate::rules::{Goal, Rules};
use candidate_lists::{CandidateFrame, CandidateLists};
use delegate_parts::{DelegateOf, Frames, Lends, Outcome, Outcomes};
use search_context::context::{Cx, NoMemory, Reply, Request, Verdict};
use search_context::path::PathKind;

/// A table of rules as a context.
#[derive(Clone, Copy)]
pub struct Table<T> {
    pub lender: T,
}

impl<T: Lends<Rules>> Cx for Table<T> {
    ghost use Rattle.delegate_parts.specs.Laws as laws;
    ghost use Rattle.delegate_parts.specs.Outcome as outcomes;
    ghost use Rattle.candidate_lists.specs.Laws.Meanings as meanings;
    ghost use Rattle.rule_tables.specs.Rules.{Proves, Refutes, candidates_of, number_of, question_of};

    type Input = Goal;

    type Result = Outcome;

    type AmbiguityInfo = ();

    type DepNodeIndex = u32;

    ghost proves = { λ cx goal held. Proves (T.lent_by cx.lender) goal held };

    ghost refutes = { λ cx goal failed. Refutes (T.lent_by cx.lender) goal failed };

    ghost is_yes = { outcomes.is_yes };

    ghost is_no = { outcomes.is_no };

    ghost token = { λ cx goal. number_of goal };

    ghost proves_more = { λ cx goal. meanings.Proves-more question_of (candidates_of (T.lent_by cx.lender) goal) };

    ghost refutes_more = { λ cx goal. meanings.Refutes-more question_of (candidates_of (T.lent_by cx.lender) goal) };

    ghost clash = { λ cx goal. meanings.clash question_of (candidates_of (T.lent_by cx.lender) goal) };

    ghost one_sort = { laws.one_sort };

    ghost same_input = { Prim.search rules };

    ghost same_result = { Prim.search rules };

    fn dep_node(self, input: Goal) -> u32 {
        input.number()
    }

    fn sort(self, outcome: Outcome) -> Verdict {
        outcome.verdict()
    }
}

impl<T: Lends<Rules>> Outcomes for Table<T> {
    ghost use Rattle.delegate_parts.specs.Laws.{own_verdicts};

    ghost same_verdicts = { own_verdicts };
}

impl<T: Lends<Rules>> CandidateLists for Table<T> {
    ghost use Rattle.rule_tables.specs.Frame.{steps_within};
    ghost use Rattle.rule_tables.specs.Rules as table;
    ghost use Rattle.rule_tables.specs.Standing.{candidates_in};
    ghost use Rattle.rule_tables.specs.declared.rules.Asking as asking;

    type Input = Goal;

    ghost Asking = { asking.Asking };

    ghost question_of = { table.question_of };

    ghost candidates_of = { candidates_in T.lent_by };

    ghost most = { λ cx. steps_within (T.lent_by cx.lender) };

    ghost same_input = { Prim.search rules };

    // These two are called in several places of a step, and so not inlined unasked.
    #[inline(always)]
    fn mark(self, goal: Goal, candidate: usize) -> Option<bool> {
        let candidate = self.lender.lent().candidates(goal).get(candidate)?;
        Some(candidate.is_marked())
    }

    #[inline(always)]
    fn question(self, goal: Goal, candidate: usize, place: usize) -> Option<(PathKind, Goal)> {
        let candidate = self.lender.lent().candidates(goal).get(candidate)?;
        let asking = candidate.question(place)?;
        Some((asking.kind, asking.goal))
    }
}

/// A goal that is worked out.
pub type TableFrame<T> = CandidateFrame<Table<T>>;

/// The delegate of the rules that a `T` lends.
pub type RulesDelegate<T, const LIMIT: usize, const PROVISIONAL: usize> = DelegateOf<
    Table<T>,
    LIMIT,
    PROVISIONAL,
>;

/// The delegate of a table of rules. A goal has the greater of 1 and `LIMIT` runs at most, and the
/// provisional cache may be used unless `PROVISIONAL` is 0.
pub type TableDelegate<'a, const LIMIT: usize, const PROVISIONAL: usize> = RulesDelegate<
    &'a Rules,
    LIMIT,
    PROVISIONAL,
>;

impl<T: Lends<Rules>> Frames for Table<T> {
    ghost use Rattle.std.specs.Prelude.{true};
    ghost use Rattle.candidate_lists.specs.Laws.Runs as runs;
    ghost use Rattle.rule_tables.specs.Frame.{steps_within};
    ghost use Rattle.rule_tables.specs.Rules.{candidates_of, question_of};
    ghost use Rattle.rule_tables.specs.Standing.{FrameStands, table_script, frame_left};

    type Cx = Table<T>;

    type Frame = TableFrame<T>;

    const MOST_RUNS_OVERFLOW: bool = true;

    ghost MOST_RUNS_OVERFLOW = { true };

    ghost script = { table_script T.lent_by };

    ghost stands = { FrameStands T.lent_by };

    ghost left = { frame_left T.lent_by };

    ghost width = { λ cx. steps_within (T.lent_by cx.lender) };

    ghost yes_is_proved = { λ cx goal. runs.yes_is_proved question_of (candidates_of (T.lent_by cx.lender) goal) };

    ghost no_is_refuted = { λ cx goal. runs.no_is_refuted question_of (candidates_of (T.lent_by cx.lender) goal) };

    fn start(cx: Table<T>, input: Goal) -> Result<TableFrame<T>, NoMemory> {
        Ok(CandidateFrame::new(cx, input))
    }

    // A search steps frames of runs, and of replays. What is called in two places is not inlined unasked, and that made
    // questions slower by a sixteenth.
    #[inline(always)]
    fn step(
        frame: &mut TableFrame<T>,
        reply: Reply<Outcome>,
    ) -> Result<Request<Goal, Outcome>, NoMemory> {
        Ok(frame.step(reply))
    }
}
