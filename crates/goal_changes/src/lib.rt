//! The words for what changes of the goals under evaluation, and where a step leads: no code but the type `Next`. It is a
//! crate of its own since the rules of a search speak of these changes, and none of them makes one: so they are proved
//! beside `open_goals`, which has the goals and makes the changes, and not after it.
//!
//! | File of `specs/` | Has |
//! |---|---|
//! | `OpenGoal`, `Newest`, `Items` | a goal with its run, the goals with the newest first, and what becomes of the newest one |
//! | `Frames` | the frames of the goals |
//! | `Entries`, `NestedGoals` | what changes of its entry, and of the goals that are recorded below it |
//! | `Steps` | the step of the newest goal's frame |
//! | `Candidates` | a candidate is opened, finished or ignored |
#![tactic(auto)]

use run_records::runs::Received;
use search_context::context::Answer;

/// What comes after a request of the newest goal's frame.
#[derive(Clone, Copy)]
pub enum Next<R> {
    /// The newest frame gets a reply.
    Step(Received<R>),
    /// No goal is left, and this is the answer to the last one.
    Finished(Answer<R>),
}
