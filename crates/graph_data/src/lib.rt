//! Graphs as data: a page has a table of rules and the answers to its questions, each with its graph. It is written from what
//! was answered, and read again, where nothing in it is trusted.
//!
//! | File of `specs/` | Has |
//! |---|---|
//! | `Data` | the tokens that spell graphs as data |
//! | `Ends` | where a value ends is told by its tokens |
//! | `Page` | a whole page of data |
//! | `Rules` | the rules on a page, and when two tables are the same |
//! | `Fault` | why reading ends early |
#![tactic(auto)]

mod fault;
pub mod law;
pub mod reading;
pub mod writing;

pub use fault::DataFault;
