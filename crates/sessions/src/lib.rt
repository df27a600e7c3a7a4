//! Questions about rules that lie in a caller's arrays, asked one by one over one cache, which lives on between them.
//!
//! Each yes and no has its graph, which is handed out as words (`graph_words` says which these are), and words that come from
//! anywhere are checked. Where the candidates of some goals are not known, `Session::wanted` says which of these were asked:
//! give them, and ask on a new session, until none is wanted.
//!
//! | File of `specs/` | Has |
//! |---|---|
//! | `Rules` | what rows say of goals, and when an answer is right by them |
//! | `Questions` | what a question comes to: what the search promises of the call |
//! | `Shown` | what the words of a graph show |
//! | `Causes` | why a goal is neither yes nor no |
//! | `Known` | the rules and the nodes of a session, and which goals are wanted |
//! | `Changed` | what a session knows once it went over to rows that changed |
#![tactic(auto)]

mod asking;
mod causes;
mod graphs;
mod session;

pub use asking::Asked;
pub use causes::{Caused, WatchedRows};
pub use delegate_parts::Outcome;
pub use rule_arrays::{
    Arrays, ArraysDelegate, CandidateRow, GoalRow, LendsArrays, NOT_KNOWN, QuestionRow, RulesIn,
};
pub use search_context::context::{Fault, NoMemory, NodeId, Verdict};
pub use session::Session;
pub use watched_runs::{Cause, Cut, Reason};
