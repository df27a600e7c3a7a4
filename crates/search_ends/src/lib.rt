//! How a run of the newest goal ends: the goal is run again, or it is popped and its result is stored.
//!
//! | File of `specs/` | Has |
//! |---|---|
//! | `RunEnded` | what the end of a run leads to |
//! | `RunAgain`, `Popped`, `Storing` | a goal is run again, popped, and stored |
#![tactic(auto)]

mod pop;
mod rerun;
pub mod run_end;
mod store;
