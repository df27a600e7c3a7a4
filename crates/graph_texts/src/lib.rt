//! Graphs as text: indented, with each goal once and the rule that proves it or the questions at which its rules fail, and in
//! the language of Graphviz. The names, letters and words that stand there are those that other forms of a graph have, too.
//!
//! | File of `specs/` | Has |
//! |---|---|
//! | `Words` | the letters of kinds and the names of goals |
//! | `Plan` | the lines of a graph's text, before they are words |
//! | `Grounds` | which rule holds, and at which question each rule fails, by the questions of edges |
//! | `Reasons` | what the questions that are named come to in a graph |
#![tactic(auto)]

pub mod dot;
mod labels;
pub mod law;
mod plan;
mod rule;
mod text;
mod words;

pub use labels::Labelled;
pub use text::write_text;
pub use words::{kind_of, letter, name_of, word};
