//! Types that are declared by equations, when one is below another, and the rule by which a search finds that out.
//!
//! Types are base words, a top, a bottom, functions, records and unions, and they are structural: a type is what its
//! equation says, its name does not matter. They may be recursive, as `stream = { head: Int tail: stream }`.
//! `structural_types` answers questions about them. Here stands all of it that needs no search: what the answers are to be,
//! that they put the types in an order, the rule as a list of questions, and why its graphs tell the truth.
//!
//! The rule is two dozen lines, in `delegate`.
//!
//! | File of `specs/` | Has |
//! |---|---|
//! | `Subtypes` | when a type is below another |
//! | `Order` | when types are in an order |
//! | `Rule` | the rule of a pair as a list of questions |
//! | `Parts`, `Pairs` | the parts of types, and the pairs that may be asked |
//! | `Fields` | the fields of records, found by their names |
//!
//! `proofs/Decided` has the lemmas for who searches: what a proof graph of a pair shows, and what a refutation graph does;
//! `proofs/Enclosed` that no question leads out of the pairs that may be asked, and how deep a search of them can be.
#![tactic(auto)]

mod delegate;
mod fields;
mod order;
mod types;

pub use delegate::{Case, Pair, PairsOf};
pub use fields::{Field, part_of};
pub use types::{Form, Types};
