//! How much of the heap a cache holds.
ghost use Rattle.std.specs.Prelude.{◌*◌, count_by, length};
ghost use Rattle.global_cache.specs.Below.{is_held};
ghost use Rattle.graph_nodes.specs.Bytes.{node_bytes};
ghost use Rattle.heap_room.specs.Bytes.{CoversBytes};

use crate::GlobalCache;
use search_context::context::Delegate;

impl<D: Delegate> GlobalCache<D> {
    /// How many bytes of the heap the cache holds: the lists of its nodes, and the map of its results with their nested goals, by
    /// the room that they have. What maps hold is an estimate (`heap_room::map_bytes`); what the context, inputs, results and
    /// tokens hold of their own is not counted. The time is linear in the nodes that are held and the results that are stored.
    pub fn held_bytes(&self) -> usize
        ensures nodes { CoversBytes (count_by is_held self.now.nodes
            * node_bytes D.Cx.Input.row D.Cx.Result.row) result }
        ensures results { CoversBytes (length self.now.results * 8) result }
    {
        self.nodes
            .held_bytes()
            .saturating_add(self.results.held_bytes())
    }
}
