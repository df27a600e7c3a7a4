//! The lines by which the programs tell what their questions came to. Nothing here asks a question, so it is proved beside
//! the search.
//!
//! | File of `specs/` | Has |
//! |---|---|
//! | `Faults` | the words of faults |
//! | `Goals`, `Types`, `Trees` | the line of a goal, of a pair of types, and of a goal under its tree |
#![tactic(auto)]

mod faults;
pub mod goals;
pub mod trees;
pub mod types;

pub use faults::fault_word;
