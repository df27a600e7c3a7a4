//! Tables of rules as a delegate of the goal search. The results of goals and what counts the frames are those of
//! `delegate_parts`; the frames, and the laws on what they do, are those of `candidate_lists`.
//!
//! | File of `specs/` | Has |
//! |---|---|
//! | `Grammar`, `Text` | the grammar of lines and of whole texts |
//! | `Question`, `Line` | questions and lines as the reading has them |
//! | `Stop` | what a fault of reading a table stops |
//! | `Table`, `Rules` | the table that a text makes, and what it says of goals |
//! | `Candidate`, `Starts` | candidates, and how a table keeps them |
//! | `Draft`, `DraftRule` | a table that is being read |
//! | `Groups` | how the rows of its rules are put goal by goal |
//! | `Frame`, `Standing` | the frame of a goal, which is that of `candidate_lists`, and where it stands |
#![tactic(auto)]

mod candidates;
pub mod delegate;
mod draft;
mod reading;
pub mod rules;
mod stop;

pub use candidates::{Candidate, Candidates};
pub use delegate::TableDelegate;
pub use delegate_parts::{Builder, Outcome};
pub use reading::ReadFault;
pub use reading::line::{Line, LineFault, line_of};
pub use reading::question::Question;
pub use rules::{Goal, Rules};
pub use stop::BadLine;
