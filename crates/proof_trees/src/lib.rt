//! Proof trees: what a search did to answer a root goal, as a tree of the goals that it worked out, their runs, the
//! candidates of each run, and their questions with the results.
//!
//! `Recording<D>` is the delegate `D` with a builder that records. It gives the same frames and the same results:
//!
//!     let mut recorder = Recorder::new(alloc, builder, true);
//!     SearchGraph::<Recording<D>>::evaluate_root_goal_for_proof_tree(&mut cache, depth, goal, &mut recorder)?;
//!     write_entries(&mut out, &words, recorder.entries())?;
//!
//! | File of `specs/` | Has |
//! |---|---|
//! | `Entries` | what is recorded of a run, of its requests and of the replies to them |
//! | `Recorder` | what a recorder has recorded, and what each call adds |
//! | `Recorded` | how entries come about, each by the start of a run or a step of the newest run that is open |
//! | `Text` | the lines of a tree |
//! | `Whole` | when entries are those of a goal that was worked out to its end |
#![tactic(auto)]

pub mod entry;
pub mod law;
pub mod recorder;
pub mod recording;
mod run_record;
pub mod writing;

pub use entry::{Entry, Part};
pub use recorder::Recorder;
pub use recording::Recording;
pub use writing::{Words, write_entries};
