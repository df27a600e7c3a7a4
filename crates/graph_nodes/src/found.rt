//! The nodes that are found while a graph is copied.
ghost use Rattle.std.specs.Prelude.{◌≡◌, [], ◌∷◌, map, slice_get, nat_eq, Some, IfOk};
ghost use Rattle.std.specs.List.{IsDistinct};
ghost use Rattle.graph_nodes.specs.Words.{Finds, ArePlaced};

use search_context::context::{Edge, NoMemory};
use std::alloc::Global;
use std::collections::HashMap;
use std::marker::Model;

/// The numbers of the nodes that were found so far, in the order of finding, each once. Its place here is
/// the node's place in the copy. So they are also the queue of what is still to be copied.
#[derive(Drop)]
pub(super) struct Found {
    numbers: Vec<usize>,
    places: HashMap<usize, usize>,
}

impl Model for Found {
    ghost use Rattle.std.specs.Prelude.{ℕ, List, nat_eq};
    ghost use Rattle.std.specs.HashMap as hash;
    ghost use Rattle.goal_paths.specs.StackIndex.{IsIndex};

    ghost Value = { List ℕ };

    ghost view = { λ f. f.numbers.items };

    ghost invariant = { λ f. IsIndex nat_eq (hash.get nat_eq f.places) f.numbers.items };
}

impl Found {
    /// No nodes. It takes no memory yet.
    pub(super) fn new(alloc: Global) -> Found
        ensures { result ≡ [] }
    {
        Found {
            numbers: Vec::new(alloc),
            places: HashMap::new(alloc),
        }
    }

    /// The number at a place.
    pub(super) fn number_at(&self, place: usize) -> Option<usize>
        ensures number { result ≡ slice_get self.now place }
        ensures distinct { IsDistinct nat_eq self.now }
    {
        self.numbers.get(place).copied()
    }

    /// The place of a number, which gets the next one if it has none.
    pub(super) fn place_of(&mut self, number: usize) -> Result<usize, NoMemory>
        ensures place { IfOk result (λ place. slice_get self.new place ≡ Some number) }
        ensures finds { Finds self.old self.new (number ∷ []) }
    {
        if let Some(place) = self.places.get(&number).copied() {
            return Ok(place);
        }
        self.numbers.reserve(1)?;
        let place = self.numbers.len();
        self.places.insert(number, place)?;
        self.numbers.push_reserved(number);
        Ok(place)
    }

    /// The edges with the places of their targets.
    pub(super) fn placed<I: Copy>(
        &mut self,
        alloc: Global,
        edges: &[Edge<I>],
    ) -> Result<Vec<Edge<I>>, NoMemory>
        ensures placed { IfOk result (λ placed. ArePlaced self.new edges.now placed.items) }
        ensures finds { Finds self.old self.new (map (λ e. e.target) edges.now) }
    {
        let mut placed = Vec::with_capacity(alloc, edges.len())?;
        for edge in edges {
            let target = self.place_of(edge.target)?;
            placed.push(Edge {
                kind: edge.kind,
                input: edge.input,
                target,
            })?;
        }
        Ok(placed)
    }
}
