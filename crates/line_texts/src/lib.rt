//! What texts of lines are made of, whatever their lines say: words, names with numbers, and how a program reads such a
//! text whole and writes its answers.
//!
//! | File of `specs/` | Has |
//! |---|---|
//! | `Lines`, `LineWords` | the lines of a text, and their words |
//! | `Names` | names and their numbers |
//! | `Writing` | what was written before a failure |
//! | `Questions` | that a text was read, and that its questions were told one after another |
#![tactic(auto)]

mod input;
mod names;
mod words;
mod writing;

pub use input::{InputFault, read_input};
pub use names::Names;
pub use words::{Words, is_name};
pub use writing::{Flush, write_bytes};
