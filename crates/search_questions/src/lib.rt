//! What a question of the newest goal comes to: it is answered, or a goal is pushed. And between two moves nodes may be
//! let go to which nothing leads.
//!
//! | File of `specs/` | Has |
//! |---|---|
//! | `Asked` | what a question comes to |
//! | `Collecting` | which nodes of a call are let go |
#![tactic(auto)]

pub mod collecting;
pub mod question;
