//! The goals under evaluation, each with the run of its frame: the newest one asks, is answered, is run again,
//! and is popped. It is a crate of its own since it knows no cache and says nothing of why an answer is right:
//! each function says what becomes of the newest goal, exactly, and the search rests its reasons on that.
//!
//! The words in which they say it are those of `goal_changes`. Of its own it has `Nodes` in `specs/`: the nodes to which
//! a goal leads.
#![tactic(auto)]

pub mod goals;
pub mod update;
