//! A run of a goal is replayed, so that its node rests on fewer answers. It is a crate of its own since it needs the
//! nodes of the global cache and the record of the run, and neither the goals under evaluation nor provisional entries.
//!
//! | File of `specs/` | Has |
//! |---|---|
//! | `Backed` | which edges may stand in the node of a run |
//! | `Lean` | runs that are replayed |
#![tactic(auto)]

pub mod lean;
