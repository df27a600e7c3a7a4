//! What follows of a call. Each is a law, a function that does nothing: a caller whose proof needs it calls it, and says of which
//! call it is by the clause `ran` of that call. What a call promises in plain words stands at the call itself.
ghost use Rattle.global_cache.specs.Sound.{IsSoundCache};
ghost use Rattle.search_graph.specs.Below.{verdicts};
ghost use Rattle.search_graph.specs.Laws.{AreLaws};

pub mod deciding;
pub mod decisive;
pub mod enclosed;
pub mod faults;
pub mod kept;
pub mod limits;
pub mod lists;
pub mod stored;
pub mod worked_out;

use global_cache::GlobalCache;
use search_context::context::Delegate;

/// The delegate keeps its laws.
pub(crate) fn keeps_laws<D: Delegate>()
    ensures { AreLaws D.Delegate D.Cx.Cx D.Cx.Input.eq D.Cx.Result.eq }
{}

/// Each finished node of a cache is a run of its goal, and each stored result has its graph and is what its goal's rank allows.
pub fn is_sound<D: Delegate>(cache: &GlobalCache<D>)
    ensures { IsSoundCache D.Cx.Input.eq (verdicts D.Cx.Cx) D.script cache.now }
{
    cache.has_runs();
    cache.has_sound_results();
}
