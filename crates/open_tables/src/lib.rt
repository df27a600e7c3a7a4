//! A table of rules that changes while it is asked: rules of a goal are added behind its others, or all taken away.
//!
//! The table tells which goals a change concerns, in a time that goes by these goals and what asks them, so that what a search
//! has found of all others can be kept. Its goals are those of `rule_tables`, and so are its results; `candidate_lists` makes
//! the delegate, over what lends the table.
//!
//! | File of `specs/` | Has |
//! |---|---|
//! | `Table` | what a table has of goals, and which of them can reach one by asking |
//! | `Changes` | what a table has once it was changed |
//! | `Kept` | what stays of a table as it changes |
#![tactic(auto)]

mod delegate;
mod table;

pub use delegate::{OpenDelegate, OpenRules};
pub use rule_tables::Goal;
pub use rule_tables::rules::Asking;
pub use table::OpenTable;
