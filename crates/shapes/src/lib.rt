//! Shapes that are declared by equations, and whether two of them are equal.
//!
//! An equation says of a shape its label and its parts, which are shapes again, and perhaps the same: `ones = 1 ones`
//! is a stream of ones, and a tree has two parts. Two shapes are equal if they have one label, as many parts, and these
//! are equal in turn. A question that leads back to itself counts as answered yes, as is right for shapes without end.
//!
//! The rule is a dozen lines, in `delegate`; the search does the rest.
//!
//! | File of `specs/` | Has |
//! |---|---|
//! | `Bisimulation` | when two shapes are equal; it names no search |
//! | `Rule` | the rule of a pair as a list of questions |
//! | `Compared` | the equations that a comparison is about, and whether a question was cut off |
#![tactic(auto)]

mod compare;
mod comparison;
mod delegate;
mod equations;

pub use comparison::Comparison;
pub use delegate::{Pair, PairsOf, ShapesDelegate};
pub use equations::{Equation, Shapes};
