//! Runs of goals that are watched: a delegate around any other one, whose builder tells where an answer that is neither yes nor
//! no comes from, and how far a search has come. A search with it promises what it promises with the other delegate.
//!
//! | File of `specs/` | Has |
//! |---|---|
//! | `Watch` | what a watcher stands beside |
//! | `Reasons` | why a question was answered neither yes nor no |
#![tactic(auto)]

mod progress;
mod watch;
mod watching;

pub use progress::{NoProgress, Progress};
pub use watch::{Cause, Cut, Reason, Watcher};
pub use watching::Watching;
