//! Answers, and what is kept from one question to the next.
ghost use Rattle.std.specs.Prelude.{◌≡◌, true};
ghost use Rattle.trait_answers.specs.Below.{AreAllDecided};
ghost use Rattle.trait_answers.specs.Deciding.{KeepsDeciding};

use delegate_parts::{Lends, Outcome};
use search_graph::graph::SearchGraph;
use search_parts::global_cache::GlobalCache;
use std::alloc::Global;
use trait_goals::{Goals, GoalsDelegate};

/// The answer to a question.
#[derive(Clone, Copy, Debug, PartialEq, Eq)]
pub struct Answered {
    /// Yes, no, or neither: `Maybe`, and `Overflow` where the goal had its most runs.
    pub outcome: Outcome,
    /// Whether a goal was cut off now. What an earlier question stored may have been cut off, too.
    pub limits_met: bool,
}

/// Answers questions about the goals that an `L` lends, as `&Goals` does. What one question finds
/// out is used in the next ones.
#[derive(Drop)]
pub struct Answers<L: Lends<Goals>> {
    pub(crate) cache: GlobalCache<GoalsDelegate<L>>,
    // It is renewed for each question.
    pub(crate) graph: SearchGraph<GoalsDelegate<L>>,
    // Each question so far had as much depth as there are goals.
    pub(crate) had_depth: bool,
    // Then, where all goals are decided, what is stored never keeps a question from being answered.
    ghost ready: { ∥ (had_depth ≡ true → AreAllDecided (L.lent_by cache.cx.0.0.lender) → KeepsDeciding ⟦<usize as PartialEq>⟧.eq (L.lent_by cache.cx.0.0.lender) cache) ∥₁ },
}
