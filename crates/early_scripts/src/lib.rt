//! A delegate of rules whose scripts stop early, for tests.
//!
//! | File of `specs/` | Has |
//! |---|---|
//! | `Early` | where a frame stands after each reply, and what it asks then |
//! | `EarlyLaws` | why what it comes to follows from the rules |
#![tactic(auto)]

mod early;

pub use early::{Early, EarlyDelegate, EarlyFrame};
