//! What a comparison keeps from one question to the next.
ghost use Rattle.std.specs.Prelude.{◌≡◌, false};
ghost use Rattle.shapes.specs.Below.{AreDefinite, outcome_verdicts};

use crate::delegate::{Pair, ShapesDelegate};
use crate::equations::Shapes;
use delegate_parts::Lends;
use search_parts::global_cache::GlobalCache;
use std::alloc::Global;

/// Compares the shapes that an `S` lends, as `&Shapes` does. What one question finds out is used in the next ones.
#[derive(Drop)]
pub struct Comparison<S: Lends<Shapes>> {
    pub(crate) cache: GlobalCache<ShapesDelegate<S>>,
    pub(crate) limits_met: bool,
    pub(crate) alloc: Global,
    // Until a limit is met, each stored answer is yes or no.
    ghost decided: { limits_met ≡ false → AreDefinite outcome_verdicts ⟦<Pair as PartialEq>⟧.eq cache.results },
}
