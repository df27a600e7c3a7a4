//! Services that need each other, and which of them can run.
//!
//! What a service needs may have to be up before it starts, or only to run beside it. Services may need each other, and
//! themselves, in the second way, but no service can start that has to wait, over others or not, until it is up.
//!
//! So its goals ask over both kinds of steps. The lemmas that lead from their graphs to words of services are those of
//! `question_lists` for any such goals.
//!
//! | File of `specs/` | Has |
//! |---|---|
//! | `Running` | when a service can run; it names no search |
//! | `Rule` | the rule of a service as a list of questions |
#![tactic(auto)]

mod answer;
mod delegate;
mod service;

pub use answer::can_run;
pub use delegate::{RunsOf, ServicesDelegate};
pub use service::{Need, Service, needs_at};
