//! Pages of answers with their graphs: as indented text, in the language of Graphviz, and as data; and the check of data that
//! is read. How graphs are written and read is in `graph_texts` and `graph_data`. Nothing here asks a question:
//! `shown_graphs` does.
//!
//! | File of `specs/` | Has |
//! |---|---|
//! | `Stop` | why a program ends early |
//! | `Checked` | what is known of an answer that is shown |
//! | `Reasons` | what is named of an answer that is neither yes nor no |
//! | `Shown` | what was shown of questions |
//! | `Told` | what is told of graphs that were read |
//! | `Program` | what a run of each program came to, and that what one writes is accepted by the other |
#![tactic(auto)]

mod answer;
mod form;
pub mod law;
mod page;
mod program;
mod reason;
mod stop;

pub use answer::{Came, accepts, without_graph};
pub use form::Form;
pub use page::Page;
pub use program::check;
pub use stop::{Stop, status_told};
