//! The programs over tables of rules: a text is read as a table, and its questions are answered in order, each on a
//! line of its own. The tables are those of `rule_tables`, which is handed on, so that a program names one crate.
//!
//! | File of `specs/` | Has |
//! |---|---|
//! | `Right` | what an outcome is worth by the rules alone |
//! | `Parts` | what is new in a graph, and what was shown before |
//! | `Told`, `Answers` | the line of a question, and what a question came to |
//! | `Program` | what a run of a program came to |
#![tactic(auto)]

mod program;

pub use answer_lines::fault_word;
pub use program::{Checks, ShownNodes, answer, ask, came_fine, run};
pub use rule_tables::{
    Builder, Candidate, Candidates, Goal, Outcome, ReadFault, Rules, TableDelegate, delegate, rules,
};
