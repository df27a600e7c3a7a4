//! Why a program ends early, and its exit status. What may be wrong with the text that it reads, each program says.
//!
//! | File of `specs/` | Has |
//! |---|---|
//! | `Stop` | exit statuses |
#![tactic(auto)]

mod stop;

pub use stop::{Stop, status_told};
