//! Texts that declare types and ask of two of them whether the one is below the other, and what such a text says: a table
//! of the types of `type_order`, with their names; and the words of a reason why one is not below another.
//!
//! | File of `specs/` | Has |
//! |---|---|
//! | `Grammar`, `Text` | the grammar of lines and of whole texts |
//! | `Line` | lines as the reading has them |
//! | `Guard` | unions that lead back to themselves through unions alone |
//! | `Table` | the table that a text makes |
//! | `Faults` | why a part of the reading failed |
//! | `Reasons` | what a reason of a no is, and its words |
#![tactic(auto)]

mod entering;
mod guard;
mod line;
mod reading;
pub mod reasons;
mod table;
mod written;

pub use reading::ReadFault;
pub use table::TypeTable;
