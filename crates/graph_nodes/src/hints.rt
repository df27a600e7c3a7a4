//! Where nodes were found before.
ghost use Rattle.std.specs.Prelude.{◌≡◌, MatchOption, None};
ghost use Rattle.graph_nodes.specs.Words.{HasNumber, IsRising, slot_at};

use crate::held::{place_by_first, place_near};
use crate::node_list::Held;
use search_context::context::NoMemory;
use std::alloc::Global;
use std::marker::Model;

/// So many places are remembered at most.
const MOST: usize = 1024;

/// The places at which nodes were found last, each with the node's number, under the last part of that. Many edges lead to
/// few nodes, those of heads and of provisional entries, and each of these is searched once. Clauses see nothing of it:
/// where a place is forgotten the search only takes longer.
#[derive(Drop)]
pub(super) struct Hints {
    places: Vec<(usize, usize)>,
}

impl Model for Hints {
    ghost use Rattle.std.specs.Prelude.{⊤};

    ghost Value = { ⊤ };

    ghost view = { λ h. tt };
}

impl Hints {
    /// Nothing was found yet of so many nodes. Where these are few, nothing will be remembered, which takes no memory.
    pub(super) fn new(alloc: Global, count: usize) -> Result<Hints, NoMemory> {
        let places = if count < MOST { 0 } else { MOST };
        Ok(Hints {
            places: Vec::from_elem(alloc, (0, 0), places)?,
        })
    }

    /// The place of the node with this number. Where it isn't remembered, it is looked for from the place `near` on.
    pub(super) fn find<I, R>(
        &mut self,
        held: &[Held<I, R>],
        near: usize,
        number: usize,
    ) -> Option<usize>
        requires { IsRising held.now }
        ensures { MatchOption result (slot_at held.now number ≡ None)
            (λ place. HasNumber held.now place number) }
    {
        if let Some(place) = place_by_first(held, number) {
            return Some(place);
        }
        let place = place_near(held, self.remembered(number).unwrap_or(near), number);
        if let Some(place) = place {
            self.remember(number, place);
        }
        place
    }

    fn remembered(&self, number: usize) -> Option<usize> {
        let (known, place) = *self.places.get(number % MOST)?;
        (known == number).then_some(place)
    }

    fn remember(&mut self, number: usize, place: usize) {
        if let Some(known) = self.places.get_mut(number % MOST) {
            *known = (number, place);
        }
    }
}
