//! The rule of a question: what it leads back to.
ghost use Rattle.std.specs.Prelude.{◌≡◌};
ghost use Rattle.std.specs.List.{list_any};
ghost use Rattle.reach.specs.Program.{blocks_of};
ghost use Rattle.reach.specs.Rule.{most_predecessors, needs_of, predecessors_of, questions_of, writes_at};

use crate::program::Program;
use delegate_parts::Lends;
use question_lists::{ListsDelegate, Needs, QuestionLists};
use search_context::path::PathKind;

/// The question whether the variable may have been written before the block is entered.
#[derive(Clone, Copy, Debug, PartialEq, Eq, Hash)]
pub struct Point {
    pub block: usize,
    pub variable: u32,
}

/// The points of the program that is lent, as goals.
#[derive(Clone, Copy)]
pub struct PointsOf<P> {
    pub lender: P,
}

/// The delegate of the analysis. As no question leads back to itself, a goal has one run, and there is no provisional
/// cache.
pub type ReachDelegate<P> = ListsDelegate<PointsOf<P>, 1, 0>;

impl Program {
    // Whether some block from which the point's block is entered writes the variable.
    fn is_written_before(&self, point: Point) -> bool
        ensures { result ≡ list_any (writes_at (blocks_of self.now) point.variable)
            (predecessors_of (blocks_of self.now) point.block) }
    {
        let predecessors = self.predecessors(point.block);
        predecessors
            .iter()
            .any(|block| self.writes(*block, point.variable))
    }
}

// Where a predecessor writes the variable, the point needs all of no questions, so it holds; else each predecessor is
// asked, and any one suffices.
impl<P: Lends<Program>> QuestionLists for PointsOf<P> {
    ghost use Rattle.std.proofs.Common.{rules};

    type Input = Point;

    ghost needs_of = { λ points point. needs_of (blocks_of (P.lent_by points.lender)) point };

    ghost questions_of = { λ points point. questions_of (blocks_of (P.lent_by points.lender)) point };

    ghost most = { λ points. most_predecessors (blocks_of (P.lent_by points.lender)) };

    ghost same_input = { Prim.search rules };

    fn needs(self, point: Point) -> Needs {
        if self.lender.lent().is_written_before(point) {
            Needs::All
        } else {
            Needs::Any
        }
    }

    fn count(self, point: Point) -> usize {
        let program = self.lender.lent();
        if program.is_written_before(point) {
            0
        } else {
            program.predecessors(point.block).len()
        }
    }

    fn question(self, point: Point, place: usize) -> (PathKind, Point) {
        let block = *self
            .lender
            .lent()
            .predecessors(point.block)
            .get(place)
            .unwrap_or(&point.block); // there is one
        (PathKind::Inductive, Point { block, ..point })
    }
}
