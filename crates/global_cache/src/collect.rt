//! Nodes are let go to which nothing leads any more.
ghost use Rattle.std.specs.Prelude.{◌≡◌, ◌<◌, ℕ, Bool, length, slice_get, OnOk, OnErr};
ghost use Rattle.global_cache.specs.Below.{with_root, AreLive, Collected, StayBefore};
ghost use Rattle.global_cache.specs.Words.{AreRooted};

use crate::GlobalCache;
use search_context::context::{Delegate, NoMemory, NodeId};

impl<D: Delegate> GlobalCache<D> {
    /// Lets go of nodes to which nothing leads any more: of those from the place `first` on, all that are
    /// reached neither from one of the roots nor from the last one, if there is one. What is left keeps its
    /// number, and no number is given again. `NoMemory` where there was none to find out which nodes these
    /// are, which leaves the cache as it was.
    ///
    /// No edge may lead from an earlier node to one from `first` on, and each of these that a stored
    /// result comes with has to be among the roots. The time is linear in the nodes that are held from
    /// `first` on and their edges, but for look-ups of numbers, and the native stack is as deep for each
    /// list.
    pub fn collect(
        &mut self,
        first: usize,
        roots: &[NodeId],
        last: Option<NodeId>,
    ) -> Result<(), NoMemory>
        requires before { StayBefore first self.old.nodes }
        requires rooted { AreRooted D.Cx.Input.eq first (with_root last roots.now)
            self.old.results }
        ensures collected { OnOk result ((live : ℕ → Bool) ×
            AreLive self.old.nodes first (with_root last roots.now) live
            × Collected live self.old.nodes self.new.nodes) }
        ensures earlier { (at : ℕ) → at < first →
            slice_get self.new.nodes at ≡ slice_get self.old.nodes at }
        ensures as_many { length self.new.nodes ≡ length self.old.nodes }
        ensures rest { self.new ≡ record self.old { nodes = self.new.nodes } }
        ensures refused { OnErr result (self.new ≡ self.old) }
    {
        self.nodes.collect(first, roots, last)
    }
}
