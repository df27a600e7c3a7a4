//! What goals mean, and what a search is told of them; nothing here knows how goals are searched. A
//! user's delegate, the checker of graphs and the search all stand on this.
//!
//! | File of `specs/` | Has |
//! |---|---|
//! | `Question`, `Run` | what a goal asks; scripts, replies, and what counts as a run |
//! | `Delegate`, `Verdicts` | words of the laws that contexts and delegates keep; which results say yes and which say no |
//! | `Graph` | proof graphs and refutation graphs of goals |
//! | `Valid` | what a graph that is handed out as data has to be |
//! | `Rank` | goals without cycles, their plain values, and the bound on frames |
//! | `Decisive` | delegates whose goals are decided where no limit is met |
#![tactic(auto)]

pub mod context;
pub mod law;

pub use path_kinds::path;
