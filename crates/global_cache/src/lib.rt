//! What a search has between its calls: the runs that have ended, as the list of nodes that the graphs
//! of its answers are made of (`graph_nodes` has it), and the results of goals.
//!
//! | File of `specs/` | Has |
//! |---|---|
//! | `Cache`, `Sound` | what a cache holds, and what holds of every cache |
//! | `Store`, `Hits` | the results that a cache stores, and which of them a look-up gives |
//! | `Findings` | what a cache has found out, without its context |
//! | `Changed` | what stays of scripts, results and nodes where rules change |
//! | `Stored`, `Rooted` | what each stored result is worth, and that its node is a root when nodes are let go |
#![tactic(auto)]

ghost use Rattle.std.specs.Prelude.{◌≡◌, []};
ghost use Rattle.global_cache.specs.Below.{verdicts, AreRuns};
ghost use Rattle.global_cache.specs.Words.{AreSoundResults};

use search_context::context::{Cx, Delegate};
use std::alloc::Global;
use std::marker::Model;

mod bytes;
mod change;
mod collect;
pub mod findings;
pub mod get;
mod graph;
mod nodes;
mod result_store;
pub mod results;

pub use findings::Findings;
pub use get::NestedTest;
use graph_nodes::node_list::NodeList;
use result_store::ResultStore;
pub use results::{Place, StoredResult};
pub use search_stack::result::CacheData;

/// The context of all searches over this cache, the nodes of their answers' graphs, and the results of
/// goals. The list of nodes never gets shorter, and a node that is finished never changes, but that
/// `collect` lets go of nodes to which nothing leads any more, and `change` of those of goals that are gone:
/// no memory is held for these, and their numbers stay. Each result is right wherever it is used: what
/// `insert` asks of it still holds. Ports `GlobalCache`.
#[derive(Drop)]
pub struct GlobalCache<D: Delegate> {
    cx: D::Cx,
    nodes: NodeList<<D::Cx as Cx>::Input, <D::Cx as Cx>::Result>,
    results: ResultStore<<D::Cx as Cx>::Input, <D::Cx as Cx>::Result, <D::Cx as Cx>::DepNodeIndex>,
}

impl<D: Delegate> Model for GlobalCache<D> {
    ghost use Rattle.global_cache.specs.Cache.{Cache};
    ghost use Rattle.global_cache.specs.Sound.{IsSoundCache};
    ghost use Rattle.search_context.specs.Verdicts.{verdicts};

    ghost Value = { Cache D.Cx D.Cx.Input D.Cx.Result D.Cx.DepNodeIndex };

    ghost view = { λ c. record { cx = c.cx; nodes = c.nodes; results = c.results } };

    ghost invariant = { λ c. IsSoundCache D.Cx.Input.eq (verdicts D.Cx.Cx) D.script (record { cx = c.cx; nodes = c.nodes; results = c.results }) };
}

impl<D: Delegate> GlobalCache<D> {
    /// A cache without nodes and results. It takes no memory yet.
    pub fn new(alloc: Global, cx: D::Cx) -> Self
        ensures { result ≡ record { cx = cx; nodes = []; results = [] } }
    {
        GlobalCache {
            cx,
            nodes: NodeList::new(alloc),
            results: ResultStore::new(alloc),
        }
    }

    /// Makes the cache as good as a new one with this context. It has the memory of what was in it, as far as that is no more
    /// than was needed of late, and takes no other yet.
    pub fn renew(&mut self, cx: D::Cx)
        ensures { self.new ≡ record { cx = cx; nodes = []; results = [] } }
    {
        let alloc = self.nodes.allocator();
        self.cx = cx;
        self.nodes.clear();
        self.results.clear(alloc);
    }

    /// The context.
    pub fn cx(&self) -> D::Cx
        ensures { result ≡ self.now.cx }
    {
        self.cx
    }

    /// What the cache takes its memory from.
    pub fn allocator(&self) -> Global {
        self.nodes.allocator()
    }

    /// Each node that is finished is a run of its goal.
    pub fn has_runs(&self)
        ensures { AreRuns (verdicts D.Cx.Cx) (D.script self.now.cx) self.now.nodes }
    {
        let _ = &self.nodes;
    }

    /// Each stored result has its graph, if it is yes or no, and is what its goal's rank allows.
    pub fn has_sound_results(&self)
        ensures { AreSoundResults D.Cx.Input.eq (verdicts D.Cx.Cx)
            (D.script self.now.cx) self.now.nodes self.now.results }
    {
        let _ = &self.results;
    }
}
