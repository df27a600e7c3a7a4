//! Goals with the paths to each, as what is asked below a goal is recorded, and where the last step of each kind
//! is. It is a crate of its own since it knows of a goal only what tells it from others.
//!
//! | File of `specs/` | Has |
//! |---|---|
//! | `Nested` | goals with the paths to them, and what joins more |
//! | `Kept` | whether they stand in a list or in a map |
//! | `Raises` | paths to them that are extended all together |
//! | `Steps` | where the last step of each kind is, which tells the kinds of cycles |
//! | `StackIndex` | the map that finds the goals of a list |
#![tactic(auto)]

mod goal_list;
pub mod held;
mod mapped_goals;
pub mod noted_goals;
mod raises;
pub mod steps;
