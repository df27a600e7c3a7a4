//! Goals as a table of rules, which the programs that show graphs read.

use search_context::path::PathKind;
use std::alloc::Global;
use std::io;
use std::io::Write;
use trait_goals::{Candidate, Goals};

/// The most that a table takes as a depth.
const MOST_DEPTH: usize = 9_999_999;

/// Rules for all goals, and questions for some. A goal is named by its number, and the labels are told in comments. It has a rule
/// for each of its candidates, in order; one whose candidates are not known asks itself by forced ambiguity.
pub fn write_table(
    alloc: Global,
    goals: &Goals,
    labels: &[Vec<u8>],
    asked: &[usize],
    depth: usize,
) -> io::Result<Vec<u8>> {
    let mut text = Vec::new(alloc);
    for goal in 0..goals.len() {
        if let Some(label) = labels.get(goal) {
            write_comment(&mut text, goal, label.as_slice())?;
        }
        write_rules(&mut text, goals, goal)?;
    }
    let depth = depth.min(MOST_DEPTH);
    for goal in asked {
        writeln!(text, "ask {depth} {goal}")?;
    }
    Ok(text)
}

fn write_comment(text: &mut Vec<u8>, goal: usize, label: &[u8]) -> io::Result<()> {
    write!(text, "# {goal} is ")?;
    text.write_all(label)?;
    text.write_all(b"\n")
}

fn write_rules(text: &mut Vec<u8>, goals: &Goals, goal: usize) -> io::Result<()> {
    let Some(known) = goals.candidates(goal) else {
        return writeln!(text, "rule {goal} = f:{goal}");
    };
    let letter = letter(goals.kind(goal));
    for candidate in known.all.iter() {
        write_rule(text, goal, candidate, letter)?;
    }
    Ok(())
}

fn write_rule(
    text: &mut Vec<u8>,
    goal: usize,
    candidate: &Candidate,
    letter: &str,
) -> io::Result<()> {
    write!(text, "rule {goal} =")?;
    for question in candidate.questions.iter() {
        write!(text, " {letter}:{question}")?;
    }
    text.write_all(b"\n")
}

fn letter(kind: PathKind) -> &'static str {
    match kind {
        PathKind::Inductive => "i",
        PathKind::Unknown => "u",
        PathKind::Coinductive => "c",
        PathKind::ForcedAmbiguity => "f",
    }
}
