//! The program over texts that declare types: a text is read as a table of types, and its questions, which types are
//! below which, are answered in order, each on a line of its own.
//!
//! | File of `specs/` | Has |
//! |---|---|
//! | `Answers` | what the answers of a text's questions are |
//! | `Search` | what the search for a reason has found |
//! | `Program` | what a run of the program came to |
#![tactic(auto)]

mod program;

pub use program::run;
