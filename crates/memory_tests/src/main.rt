//! Tests of what happens where memory is out. The program reads inputs of the programs, asks their questions twice and
//! between that at another depth, and says what they come to. Any one of its requests for memory may be refused: then a
//! question may meet a fault, but it leaves all as it was, and is answered as ever when it is asked again; of other inputs, the
//! first question is answered a second time without memory. `tests/memory` refuses the requests one after the other.
#![tactic(auto)]

mod alike;
mod asked;
mod bare_calls;
mod failed;
mod stored;
mod without_memory;

use alike::write_alike;
use asked::Asked;
use delegate_parts::Outcome;
use failed::Failed;
use rule_tables::delegate::Table;
use rule_tables::{Rules, TableDelegate};
use std::alloc::{AllocError, Global};
use std::io;
use std::io::{BufWriter, Read, Write};
use std::test::Fail;
use without_memory::answer_again;

/// The byte between two inputs.
const BETWEEN: u8 = 0x1e;

/// Room for the input, so that reading takes no more memory.
const ROOM: usize = 1 << 20;

fn main(rt: HostRuntime) -> Result<(), Fail> {
    let mut input = room(rt.alloc())?;
    rt.stdin().read_to_end(&mut input)?;
    for run in input.as_slice().split(|byte| *byte == BETWEEN) {
        answer_input(&rt, run)?;
    }
    Ok(())
}

/// Answers one of the inputs.
fn answer_input(rt: &HostRuntime, run: &[u8]) -> Result<(), Fail> {
    let (head, text) = head_of(run);
    if let Some(words) = head.strip_prefix(b"alike ") {
        return print_alike(rt, number_in(words)?);
    }
    if head == b"without memory".as_slice() {
        return tell_answer(rt, answer_at_last(rt.alloc(), text));
    }
    tell_answers(rt, answers_at_last(rt.alloc(), head, text))
}

fn print_alike(rt: &HostRuntime, seed: u64) -> Result<(), Fail> {
    let mut out = BufWriter::new(rt.alloc(), io::writer(rt))?;
    write_alike(&mut out, seed)?;
    out.flush()?;
    Ok(())
}

/// What the questions come to, again where what the check itself takes was refused: it is the one request that is.
fn answers_at_last(alloc: Global, head: &[u8], text: &[u8]) -> Result<Asked, Failed> {
    match answers_in(alloc, head, text) {
        Err(Failed::Memory) => answers_in(alloc, head, text),
        found => found,
    }
}

/// What the first question comes to, and again without memory; tried again where what comes before that was refused.
fn answer_at_last(alloc: Global, text: &[u8]) -> Result<Outcome, Failed> {
    match answer_again(alloc, text) {
        Err(Failed::Memory) => answer_again(alloc, text),
        found => found,
    }
}

fn tell_answer(rt: &impl Print, found: Result<Outcome, Failed>) -> Result<(), Fail> {
    match found {
        Ok(outcome) => tell_each(rt, &[outcome]),
        Err(failed) => tell_failed(rt, failed),
    }
}

fn tell_answers(rt: &impl Print, found: Result<Asked, Failed>) -> Result<(), Fail> {
    match found {
        Ok(asked) => tell_each(rt, asked.outcomes()),
        Err(failed) => tell_failed(rt, failed),
    }
}

fn tell_each(rt: &impl Print, answers: &[Outcome]) -> Result<(), Fail> {
    for answer in answers {
        print!(rt; "{answer} ")?;
    }
    println!(rt; ".")?;
    Ok(())
}

fn tell_failed(rt: &impl Print, failed: Failed) -> Result<(), Fail> {
    match failed {
        Failed::Malformed => println!(rt; "malformed")?,
        Failed::Wrong(otherwise) => println!(rt; "wrong: {otherwise}")?,
        Failed::Memory => println!(rt; "wrong: refused twice")?,
    }
    Ok(())
}

/// The number that the word is.
fn number_in(word: &[u8]) -> Result<u64, Fail> {
    let mut number = 0u64;
    for byte in word {
        let b'0'..=b'9' = *byte else {
            return Err("no number")?;
        };
        number = number
            .saturating_mul(10)
            .saturating_add(u64::from(*byte - b'0'));
    }
    Ok(number)
}

/// Room for the input.
fn room(alloc: Global) -> Result<Vec<u8>, AllocError> {
    match Vec::with_capacity(alloc, ROOM) {
        Ok(room) => Ok(room),
        Err(_) => Vec::with_capacity(alloc, ROOM),
    }
}

/// The first line and the others.
fn head_of(run: &[u8]) -> (&[u8], &[u8]) {
    match run.iter().position(|byte| *byte == b'\n') {
        Some(end) => {
            let (head, rest) = run.split_at_checked(end).unwrap_or((run, &[]));
            (head, rest.get(1..).unwrap_or(&[]))
        }
        None => (run, &[]),
    }
}

/// The questions of a text with what they come to, with the options that the head names.
fn answers_in(alloc: Global, head: &[u8], text: &[u8]) -> Result<Asked, Failed> {
    let rules = Rules::read(alloc, text)?;
    let mut asked = Asked::new(alloc, &rules)?;
    ask_with(alloc, &rules, head, &mut asked)?;
    Ok(asked)
}

fn ask_with(alloc: Global, rules: &Rules, options: &[u8], asked: &mut Asked) -> Result<(), Failed> {
    match options.strip_suffix(b" provisional off") {
        Some(limit) => ask_within::<0>(alloc, rules, limit, asked),
        None => ask_within::<1>(alloc, rules, options, asked),
    }
}

fn ask_within<const PROVISIONAL: usize>(
    alloc: Global,
    rules: &Rules,
    limit: &[u8],
    asked: &mut Asked,
) -> Result<(), Failed> {
    match limit {
        b"limit 0" => ask_by::<0, PROVISIONAL>(alloc, rules, asked),
        b"limit 1" => ask_by::<1, PROVISIONAL>(alloc, rules, asked),
        b"limit 2" => ask_by::<2, PROVISIONAL>(alloc, rules, asked),
        b"limit 3" => ask_by::<3, PROVISIONAL>(alloc, rules, asked),
        b"limit 8" => ask_by::<8, PROVISIONAL>(alloc, rules, asked),
        _ => Err(Failed::Wrong("other options")),
    }
}

fn ask_by<const LIMIT: usize, const PROVISIONAL: usize>(
    alloc: Global,
    rules: &Rules,
    asked: &mut Asked,
) -> Result<(), Failed> {
    let cx = Table { lender: rules };
    asked.ask::<Table<&Rules>, TableDelegate<'_, LIMIT, PROVISIONAL>>(alloc, cx)
}
