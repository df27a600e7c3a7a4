//! One run of a goal: what it has done so far, what its finished candidates used, and the step of its frame; and the
//! memory of runs that have ended, for others. It is a crate of its own since it knows no stack and no cache: the record
//! follows replies and requests alone, so it is proved beside the crates that have these.
//!
//! | File of `specs/` | Has |
//! |---|---|
//! | `Progress` | what a run has done so far, and when a record says so |
//! | `Nodes` | the nodes to which a run leads |
//! | `Steps` | the step of a run's frame |
#![tactic(auto)]

pub mod candidates;
pub mod progress;
pub mod runs;
pub mod spare;
