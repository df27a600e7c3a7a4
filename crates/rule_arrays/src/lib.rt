//! Rules as rows that lie in memory of the caller, so that a search reads them where they are.
//!
//! A goal is a number, its place in the list of goals. Rows may stand in any order and share what they lead to, so who finds
//! rules while goals are asked adds rows behind those that are there, and makes a goal known by its row. A search over
//! `RulesIn` reads them; `first_fault` tells whether they are in order, and `TableRows` are those of a table that was read
//! from a text.
//!
//! | File of `specs/` | Has |
//! |---|---|
//! | `Table` | what the rows say: the candidates of each goal |
//! | `Faults` | when rows are in order, and the first one that is not |
//! | `Rows` | the rows of a table of rules |
//! | `Written` | rows that are written to slices |
//! | `Names` | where a name stands in the names of a table |
#![tactic(auto)]

mod changes;
mod delegate;
mod faults;
mod names;
mod rows;
mod table_rows;

pub use changes::concerned;
pub use delegate::{ArraysDelegate, RulesIn};
pub use faults::{RowFault, first_fault};
pub use names::find;
pub use rows::{Arrays, CandidateRow, GoalRow, LendsArrays, NOT_KNOWN, QuestionRow};
pub use table_rows::{Sizes, TableRows};
