//! The stack of a search: the goals under evaluation, how deep they may go, what is recorded of each,
//! and what is known of a goal once it is done.
//!
//! | File of `specs/` | Has |
//! |---|---|
//! | `Stack`, `Lent` | the goals under evaluation, and how they are lent |
//! | `Cycle` | kinds of the cycles through a goal under evaluation |
//! | `Hit` | a stored result that is used |
#![tactic(auto)]

pub mod depth;
pub mod nested_goals;
pub mod result;
pub mod room;
pub mod stack;
