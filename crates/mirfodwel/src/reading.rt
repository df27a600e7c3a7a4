//! Texts are read into rows.
ghost use Rattle.std.specs.Prelude.{◌≡◌, ◌≢◌, ◌==◌, ◌⊎◌};
ghost use Rattle.mirfodwel.specs.Reading.{AreWritten, lists};
ghost use Rattle.rule_arrays.specs.Names.{IsFirstLine, IsInNoLine};
ghost use Rattle.rule_tables.specs.Text.{IsFirstBadLine, Reads};

use crate::status::{BAD_INPUT, DONE, NO_MEMORY, NO_ROOM, UNKNOWN};
use rule_arrays::{CandidateRow, GoalRow, QuestionRow, Sizes, TableRows, find};
use rule_tables::{ReadFault, Rules};
use std::alloc::Global;

/// Reads the rules of the text, as `mirfodwel_goals` does, and writes them as rows to the beginning of these lists.
/// Goals are numbered in the order of first mention, and `names` takes their names in this order, each with a newline
/// behind it. The questions of the text are left out. `sizes` says how many rows and bytes there are.
///
/// `NO_ROOM` where one of the lists is too short: nothing is written to them, and `sizes` says what is wanted.
/// `BAD_INPUT` where a line is malformed: `line` says which, counted from 1. `NO_MEMORY`. These two change nothing
/// else.
#[unsafe(no_mangle)]
pub extern "C" fn mirfodwel_read(
    alloc: Global,
    text: &[u8],
    goals: &mut [GoalRow],
    candidates: &mut [CandidateRow],
    questions: &mut [QuestionRow],
    names: &mut [u8],
    sizes: &mut Sizes,
    line: &mut usize,
) -> u8
    ensures status { (result ≡ 0) ⊎ (result ≡ 2) ⊎ (result ≡ 4) ⊎ (result ≡ 5) }
    ensures read { (result ≡ 0) ⊎ (result ≡ 5) → (rules : _) × Reads text.now rules × AreWritten rules
        (lists goals.old candidates.old questions.old names.old)
        (lists goals.new candidates.new questions.new names.new) sizes.new (result == 0) }
    ensures bad_line { result ≡ 2 → IsFirstBadLine text.now line.new }
    ensures kept { (result ≡ 2) ⊎ (result ≡ 4) → lists goals.new candidates.new questions.new names.new
        ≡ lists goals.old candidates.old questions.old names.old }
    ensures kept_sizes { (result ≡ 2) ⊎ (result ≡ 4) → sizes.new ≡ sizes.old }
    ensures kept_line { result ≢ 2 → line.new ≡ line.old }
{
    match Rules::read(alloc, text) {
        Ok(rules) => write(alloc, &rules, goals, candidates, questions, names, sizes),
        Err(ReadFault::BadLine(number)) => {
            *line = number;
            BAD_INPUT
        }
        Err(ReadFault::Memory) => NO_MEMORY,
    }
}

fn write(
    alloc: Global,
    rules: &Rules,
    goals: &mut [GoalRow],
    candidates: &mut [CandidateRow],
    questions: &mut [QuestionRow],
    names: &mut [u8],
    sizes: &mut Sizes,
) -> u8
    ensures status { (result ≡ 0) ⊎ (result ≡ 4) ⊎ (result ≡ 5) }
    ensures written { (result ≡ 0) ⊎ (result ≡ 5) → AreWritten rules.now
        (lists goals.old candidates.old questions.old names.old)
        (lists goals.new candidates.new questions.new names.new) sizes.new (result == 0) }
    ensures kept { result ≡ 4 → lists goals.new candidates.new questions.new names.new
        ≡ lists goals.old candidates.old questions.old names.old }
    ensures kept_sizes { result ≡ 4 → sizes.new ≡ sizes.old }
{
    let Ok(rows) = TableRows::new(alloc, rules) else {
        return NO_MEMORY;
    };
    *sizes = rows.sizes();
    if rows.write(goals, candidates, questions, names) {
        DONE
    } else {
        NO_ROOM
    }
}

/// Finds the goal of this name: the place of the first line of `names` that is the name. Newlines end the lines, and
/// the last one may lack it.
///
/// `UNKNOWN` where there is none, and for an empty name: `goal` is not changed.
#[unsafe(no_mangle)]
pub extern "C" fn mirfodwel_find(names: &[u8], name: &[u8], goal: &mut u32) -> u8
    ensures status { (result ≡ 0) ⊎ (result ≡ 7) }
    ensures found { result ≡ 0 → IsFirstLine names.now name.now goal.new }
    ensures unknown { result ≡ 7 → IsInNoLine names.now name.now }
    ensures kept { result ≡ 7 → goal.new ≡ goal.old }
{
    match find(names, name) {
        Some(place) => {
            *goal = place;
            DONE
        }
        None => UNKNOWN,
    }
}
