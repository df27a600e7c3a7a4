//! Answers with their graphs, to be looked at: each question of a text is asked, and its answer stands on a page of
//! `graph_pages`, with its graph if the checker accepts it. What needs no search is there, the specs too.
#![tactic(auto)]

mod answer;
mod causes;
mod program;

pub use causes::causes_within;
pub use graph_pages::{Form, Stop, check};
pub use program::{explain, explain_within, show_text};
pub use watched_runs::{Cause, NoProgress, Progress};
