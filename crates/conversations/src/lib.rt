//! A conversation about rules: lines change the rules or ask goals, and each is told of before the next one is read. What does
//! not rest on a change stays known.
//!
//! | File of `specs/` | Has |
//! |---|---|
//! | `Conversation` | lines in turn, what comes of each by the rules as they stand, and what is told of it |
//! | `Answer` | what a question comes to, by the rules as they stand |
//! | `Known` | what is known beside the rules, and what a line does to both |
#![tactic(auto)]

mod known;
mod line;
mod program;
mod turns;

pub use known::Conversation;
pub use program::converse;
