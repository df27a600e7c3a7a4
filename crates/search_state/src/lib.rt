//! What a call carries along beside the cache: the goals under evaluation with their runs, the scopes that are held for
//! them, the provisional cache, and what it knows of the nodes that it writes.
//!
//! | File of `specs/` | Has |
//! |---|---|
//! | `Drafts` | the nodes that a call writes, and which of them it has noted |
//! | `Scopes` | the scopes that are held |
#![tactic(auto)]

pub mod drafts;
pub mod evaluation;
pub mod scopes;
