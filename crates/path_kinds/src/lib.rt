//! What all above stands on: kinds of paths between goals and sets of them, and what a call answers where there is
//! no memory.
//!
//! | File of `specs/` | Has |
//! |---|---|
//! | `Path` | the kinds, their order, and the kind of a path |
//! | `Paths` | sets of paths, and what they become over one more step |
#![tactic(auto)]

pub mod memory;
pub mod path;
