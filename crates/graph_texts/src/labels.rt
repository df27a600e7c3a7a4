//! What goals are called where they are shown.

use crate::words::name_of;
use rule_tables::{Goal, Rules};

/// Rules that are shown, and what their goals are called.
#[derive(Clone, Copy)]
pub struct Labelled<'a> {
    pub rules: &'a Rules,
    /// What those goals are called whose names are numbers, by these numbers. Where there is none, a goal is called by its name.
    pub labels: &'a [Vec<u8>],
}

impl<'a> Labelled<'a> {
    /// What the goal is called. A goal of another table has no name.
    pub fn name(self, goal: Goal) -> &'a str {
        let name = name_of(self.rules, goal);
        label_of(self.labels, name).unwrap_or(name)
    }
}

// The label of the number that the name is, if it is one.
fn label_of<'a>(labels: &'a [Vec<u8>], name: &str) -> Option<&'a str> {
    let number: usize = name.parse().ok()?;
    let label = labels.get(number)?;
    std::str::from_utf8(label.as_slice()).ok()
}
