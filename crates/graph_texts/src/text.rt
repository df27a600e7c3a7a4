//! A graph as indented text.

use crate::labels::Labelled;
use crate::plan::{Line, Planned, plan};
use crate::rule::{Grounds, failures, holding};
use crate::words::{letter, write_rule};
use rule_tables::rules::Asking;
use rule_tables::{Candidates, Goal, Outcome};
use search_context::context::{NoMemory, Node};
use std::alloc::Global;
use std::io;
use std::io::Write;

/// How many levels are indented. A line of a deeper level has its number as well, so that the text grows no faster than
/// the graph.
const MOST_LEVELS: usize = 20;

/// The indentation of these.
const SPACES: &[u8] = b"                                        ";

/// Writes the graph's lines: each goal once, with the rule that proves it or the questions at which its rules fail, and what
/// it rests on below it. Goals that lie deeper than `most` steps below the root are left out, and the last line says how many.
pub fn write_text<W: Write>(
    alloc: Global,
    out: &mut W,
    shown: Labelled<'_>,
    nodes: &[Node<Goal, Outcome>],
    most: usize,
) -> io::Result<()> {
    let Planned { lines, left } = plan(alloc, nodes, most).map_err(no_memory)?;
    for line in lines.as_slice() {
        write_line(alloc, out, shown, nodes, *line)?;
    }
    if left > 0 {
        writeln!(out, "goals left out: {left}, which lie deeper than {most}")
    } else {
        Ok(())
    }
}

fn no_memory(_refused: NoMemory) -> io::Error {
    io::Error::from(io::ErrorKind::OutOfMemory)
}

fn write_line<W: Write>(
    alloc: Global,
    out: &mut W,
    shown: Labelled<'_>,
    nodes: &[Node<Goal, Outcome>],
    line: Line,
) -> io::Result<()> {
    match line {
        Line::Shown {
            place,
            level,
            number,
        } => match nodes.get(place) {
            Some(node) => write_node(alloc, out, shown, node, level, number),
            None => Ok(()),
        },
        Line::Again {
            place,
            level,
            number,
            closes,
        } => match nodes.get(place) {
            Some(node) => write_again(out, shown, node, level, number, closes),
            None => Ok(()),
        },
        Line::Cut { place, level } => match nodes.get(place) {
            Some(node) => write_cut(out, shown, node, level),
            None => Ok(()),
        },
    }
}

fn write_indentation<W: Write>(out: &mut W, level: usize) -> io::Result<()> {
    if MOST_LEVELS < level {
        out.write_all(SPACES)?;
        write!(out, "[{level}] ")
    } else {
        out.write_all(&SPACES[..2 * level])
    }
}

// What a node's result says.
fn says(outcome: Outcome) -> &'static str {
    match outcome {
        Outcome::Yes => "holds",
        Outcome::No => "does not hold",
        Outcome::Maybe => "is maybe",
        Outcome::Overflow => "is overflow",
    }
}

fn write_node<W: Write>(
    alloc: Global,
    out: &mut W,
    shown: Labelled<'_>,
    node: &Node<Goal, Outcome>,
    level: usize,
    number: usize,
) -> io::Result<()> {
    let candidates = shown.rules.candidates(node.input);
    let grounds = Grounds::new(alloc, &node.edges).map_err(no_memory)?;
    write_shown(out, shown, node, level, number)?;
    if node.result != Outcome::Yes {
        let named = failures(alloc, &candidates, &grounds).map_err(no_memory)?;
        return write_refutation(out, shown, node.input, &candidates, &named, level);
    }
    if let Some(candidate) = holding(&candidates, &grounds) {
        write_rule(out, ", by rule ", shown, node.input, &candidate)?;
    }
    out.write_all(b"\n")
}

// The beginning of the line of a node that is shown.
fn write_shown<W: Write>(
    out: &mut W,
    shown: Labelled<'_>,
    node: &Node<Goal, Outcome>,
    level: usize,
    number: usize,
) -> io::Result<()> {
    write_indentation(out, level)?;
    let name = shown.name(node.input);
    let said = says(node.result);
    if number > 0 {
        write!(out, "{number} {name} {said}")
    } else {
        write!(out, "{name} {said}")
    }
}

// The question at which each rule fails, on a line for each.
fn write_refutation<W: Write>(
    out: &mut W,
    shown: Labelled<'_>,
    goal: Goal,
    candidates: &Candidates<'_>,
    named: &[Option<Asking>],
    level: usize,
) -> io::Result<()> {
    if candidates.count() == 0 {
        return out.write_all(b", for it has no rule\n");
    }
    out.write_all(b"\n")?;
    for (place, failing) in named.iter().enumerate() {
        if let Some(candidate) = candidates.get(place) {
            write_indentation(out, level.saturating_add(1))?;
            write_rule(out, "rule ", shown, goal, &candidate)?;
            write_failing(out, shown, *failing)?;
        }
    }
    Ok(())
}

// At which question a rule fails, at the end of its line.
fn write_failing<W: Write>(
    out: &mut W,
    shown: Labelled<'_>,
    failing: Option<Asking>,
) -> io::Result<()> {
    let Some(asking) = failing else {
        return out.write_all(b"\n");
    };
    let letter = letter(asking.kind);
    let name = shown.name(asking.goal);
    writeln!(out, " fails at {letter}:{name}")
}

// A goal that has its lines elsewhere.
fn write_again<W: Write>(
    out: &mut W,
    shown: Labelled<'_>,
    node: &Node<Goal, Outcome>,
    level: usize,
    number: usize,
    closes: bool,
) -> io::Result<()> {
    write_indentation(out, level)?;
    let name = shown.name(node.input);
    let end = end_of_again(closes, node.result);
    if number > 0 {
        writeln!(out, "{name} again, as {number}{end}")
    } else {
        writeln!(out, "{name} again{end}")
    }
}

fn end_of_again(closes: bool, outcome: Outcome) -> &'static str {
    match (closes, outcome) {
        (true, Outcome::Yes) => ": the cycle is coinductive",
        (true, _) => ": the cycle is inductive",
        (false, _) => "",
    }
}

fn write_cut<W: Write>(
    out: &mut W,
    shown: Labelled<'_>,
    node: &Node<Goal, Outcome>,
    level: usize,
) -> io::Result<()> {
    write_indentation(out, level)?;
    let name = shown.name(node.input);
    let said = says(node.result);
    writeln!(out, "{name} {said}: left out here")
}
