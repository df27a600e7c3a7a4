//! Which variables may have been written before a block of a program is entered.
//!
//! The blocks are a graph without cycles: a block's predecessors have smaller numbers. A question is asked where it is
//! needed alone, and its answer is kept. As the blocks that a question leads to have smaller numbers, it has a rank, and
//! a depth that suffices is known: so the answer is exact.
//!
//! | File of `specs/` | Has |
//! |---|---|
//! | `Paths` | ways back through the blocks, and which of them end at a write; it names no search |
//! | `Rule` | the rule of a question as a list of questions |
//! | `Program`, `Analysed` | the blocks of a program, and of the one that an analysis is about |
#![tactic(auto)]

mod analysis;
mod building;
mod delegate;
mod program;

pub use analysis::Analysis;
pub use building::AddFault;
pub use delegate::{Point, PointsOf, ReachDelegate};
pub use program::{Block, Program};
