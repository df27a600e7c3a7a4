//! What a solver keeps from one question to the next.
ghost use Rattle.std.specs.Prelude.{◌≡◌, false};
ghost use Rattle.games.specs.Below.{AreDefinite, outcome_verdicts};

use crate::delegate::GamesDelegate;
use crate::game::Game;
use delegate_parts::Lends;
use search_parts::global_cache::GlobalCache;
use std::alloc::Global;

/// Solves the game that a `G` lends, as `&Game` does. What one question finds out is used in the next ones.
#[derive(Drop)]
pub struct Solver<G: Lends<Game>> {
    pub(crate) cache: GlobalCache<GamesDelegate<G>>,
    pub(crate) limits_met: bool,
    pub(crate) alloc: Global,
    // Until a limit is met, each stored answer is yes or no.
    ghost decided: { limits_met ≡ false → AreDefinite outcome_verdicts ⟦<usize as PartialEq>⟧.eq cache.results },
}
