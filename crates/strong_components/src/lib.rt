//! Strongly connected components of a graph of numbers, in linear time and without recursion.
//!
//! A graph is a list that has the successors of each place. Two places stand in one component when each is
//! reached from the other. Components are numbered so that the numbers never rise along a step, and so a
//! step lies on a closed walk exactly when it leads to a place with the same number.
#![tactic(auto)]

ghost use Rattle.std.specs.Prelude.{◌↔◌, ◌<◌, All, IfOk, IsTrue};
ghost use Rattle.strong_components.specs.Words.{AreComponents, StaysInside, StepsWithinClose, successor_lists};

mod search;

use search::Search;
use std::alloc::{AllocError, Global};

/// The number of each place's component. Numbers go from 0 without a gap and never rise along a step, and two places
/// have the same number exactly when each is reached from the other. Takes time and memory in proportion to
/// the places and steps of the graph. The only error is that memory ran out.
pub fn components(alloc: Global, graph: &[Vec<usize>]) -> Result<Vec<usize>, AllocError>
    requires inside { StaysInside (successor_lists graph.now) }
    ensures { IfOk result (λ numbers. AreComponents (successor_lists graph.now) numbers.items) }
{
    let mut search = Search::new(alloc, graph)?;
    search.explore_all(graph)?;
    search.into_numbers(alloc)
}

/// Whether each successor is a place of the graph, as [`components`] requires.
pub fn stays_inside(graph: &[Vec<usize>]) -> bool
    ensures { IsTrue result ↔ StaysInside (successor_lists graph.now) }
{
    for successors in graph {
        if !all_below(successors, graph.len()) {
            return false;
        }
    }
    true
}

fn all_below(places: &[usize], limit: usize) -> bool
    ensures { IsTrue result ↔ All (λ place. place < limit) places.now }
{
    places.iter().all(|place| *place < limit)
}

/// A step lies on a closed walk exactly when both of its ends have the same number.
pub fn steps_within_components_close()
    ensures { StepsWithinClose }
{}
