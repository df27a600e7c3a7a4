//! Rows as a text of rules, with one question.
ghost use Rattle.std.specs.Prelude.{◌≡◌, ◌++◌, IfOk, OnOk, slice_get};
ghost use Rattle.std.specs.List.{flat_map};
ghost use Rattle.mirfodwel.specs.Rows.{rows_of};
ghost use Rattle.mirfodwel.specs.TableText.{goal_text, letter_of, question_text, row_text, rule_text, text_asking};
ghost use Rattle.rule_arrays.specs.Table.{part_of};

use crate::lent::Lent;
use rule_arrays::{CandidateRow, GoalRow, NOT_KNOWN, QuestionRow};
use std::alloc::Global;
use std::io;
use std::io::Write;

/// The most that a text takes as a depth.
const MOST_DEPTH: usize = 9_999_999;

/// A text with a rule for each candidate of each goal, in order, which asks this goal at this depth. Goals are named by
/// their numbers.
pub(crate) fn table_text(alloc: Global, lent: Lent, depth: usize, goal: u32) -> io::Result<Vec<u8>>
    ensures { IfOk result (λ text. text.items ≡ text_asking (rows_of lent) depth goal) }
{
    let mut text = Vec::new(alloc);
    for place in 0..lent.goals.len() {
        write_goal(&mut text, lent, place)?;
    }
    let depth = depth.min(MOST_DEPTH);
    writeln!(text, "ask {depth} {goal}")?;
    Ok(text)
}

fn write_goal(text: &mut Vec<u8>, lent: Lent, place: usize) -> io::Result<()>
    ensures { OnOk result (text.new.items ≡ text.old.items
        ++ goal_text (rows_of lent) place (slice_get lent.goals.now place)) }
{
    match lent.goals.get(place).copied() {
        Some(row) => write_rules_of(text, lent, place, row),
        None => Ok(()),
    }
}

fn write_rules_of(text: &mut Vec<u8>, lent: Lent, place: usize, row: GoalRow) -> io::Result<()>
    ensures { OnOk result (text.new.items ≡ text.old.items ++ row_text (rows_of lent) place row) }
{
    if row.count == NOT_KNOWN {
        writeln!(text, "rule {place} = f:{place}")
    } else {
        let rows = part_of(lent.candidates, row.first, row.count);
        write_rules(text, place, rows, lent.questions)
    }
}

// So many elements of the list from the first one on; where the list ends before, fewer.
fn part_of<T>(list: &[T], first: u32, count: u32) -> &[T]
    ensures { result.now ≡ part_of list.now first count }
{
    let first = (first as usize).min(list.len());
    let rest = &list[first..];
    let count = (count as usize).min(rest.len());
    &rest[..count]
}

fn write_rules(
    text: &mut Vec<u8>,
    place: usize,
    rows: &[CandidateRow],
    questions: &[QuestionRow],
) -> io::Result<()>
    ensures { OnOk result (text.new.items ≡ text.old.items
        ++ flat_map (rule_text questions.now place) rows.now) }
{
    for row in rows {
        write_rule(text, place, *row, questions)?;
    }
    Ok(())
}

fn write_rule(
    text: &mut Vec<u8>,
    place: usize,
    row: CandidateRow,
    questions: &[QuestionRow],
) -> io::Result<()>
    ensures { OnOk result (text.new.items ≡ text.old.items ++ rule_text questions.now place row) }
{
    let mark = if row.is_marked == 0 { "" } else { "~" };
    write!(text, "rule {mark}{place} =")?;
    write_questions(text, part_of(questions, row.first, row.count))?;
    text.push(b'\n')?;
    Ok(())
}

fn write_questions(text: &mut Vec<u8>, rows: &[QuestionRow]) -> io::Result<()>
    ensures { OnOk result (text.new.items ≡ text.old.items ++ flat_map question_text rows.now) }
{
    for row in rows {
        write_question(text, *row)?;
    }
    Ok(())
}

fn write_question(text: &mut Vec<u8>, row: QuestionRow) -> io::Result<()>
    ensures { OnOk result (text.new.items ≡ text.old.items ++ question_text row) }
{
    let letter = letter(row.kind);
    let goal = row.goal;
    write!(text, " {letter}:{goal}")
}

// The letter of a kind.
fn letter(kind: u32) -> &'static str
    ensures { result.now ≡ letter_of kind }
{
    match kind {
        0 => "i",
        1 => "u",
        2 => "c",
        _ => "f",
    }
}
