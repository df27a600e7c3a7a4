//! Whether one of the types of `type_order` is below another.
//!
//! They may be recursive, as `stream = { head: Int tail: stream }`. A question that leads back to itself counts as answered
//! yes, as is right for types without end. Each question is answered, yes or no, unless memory is out.
//!
//! The types and the rule stand in `type_order`, which needs no search, and are handed on here; the search does the rest.
//!
//! | File of `specs/` | Has |
//! |---|---|
//! | `Asked` | the types that a subtyping is asked about |
//! | `Deciding` | what is kept true of the stored answers, so that the next question is decided, too |
#![tactic(auto)]

mod ask;
mod subtyping;

pub use subtyping::{Subtyping, TypesDelegate};
pub use type_order::{Field, Form, Pair, PairsOf, Types};
