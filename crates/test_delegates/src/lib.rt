//! What tests have to implement of what a search asks of its user.
//!
//! | Module | Has |
//! |---|---|
//! | `loops` | goals that ask themselves: a run of one has a node with an edge to itself, which is why a node is opened before its run begins |
//! | `countdown` | goals that count down, and go as deep as one likes |
//! | `scripts` | goals with scripts, which make requests in any order |
//! | `refusing` | a delegate around any other one, whose frames are refused memory |
//! | `validating`, `watch`, `journal` | another one, which has stored results validated and keeps a journal |
//! | `nested` | tests of the goals below a stored result |
#![tactic(auto)]

pub mod countdown;
pub mod journal;
pub mod loops;
pub mod nested;
pub mod refusing;
pub mod scripts;
pub mod validating;
pub mod watch;
