//! Texts that declare types, traits and impls and ask which types implement which traits, and what such texts say: rules
//! of `trait_rules`, with the names by which types are written.
//!
//! | File of `specs/` | Has |
//! |---|---|
//! | `WellFormed` | what the reading promises of rules, types and questions |
#![tactic(auto)]

mod asking;
mod bound_grammar;
mod calls;
mod declarations;
mod draft;
mod forms;
mod grammar;
mod item;
mod lexicon;
mod machine;
mod names;
mod open;
mod program;
mod reader;
mod refusal;
mod spelling;
mod step;
mod token;

pub use declarations::{Declarations, Options, Question, Source, read};
pub use refusal::{Problem, ReadFault, Refusal};
pub use spelling::Spelling;
