//! The lines of a conversation, whatever comes of them: how one is read after another, and what each says. A line says what
//! a line of a table's text may say (`rule_tables`), or `forget NAME`.
//!
//! | File of `specs/` | Has |
//! |---|---|
//! | `Grammar` | what a line says |
//! | `Line` | the same as the reading has it |
//! | `Taken` | that the first line of what is left was taken |
#![tactic(auto)]

mod input;
mod line;

pub use input::{LineEnd, next_line};
pub use line::{Said, said_by};
