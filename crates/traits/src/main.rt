//! Answers which types implement which traits, and shows why. Types, traits, impls and questions are read from files in (nearly)
//! Rust's syntax, or from standard input.
#![tactic(auto)]

ghost use Rattle.std.specs.Prelude.{◌≤◌};

mod arguments;
mod causes;
mod program;
mod rounds;

use arguments::{How, USAGE, order_of};
use program::{answer, ask_declared, show, tell_rules};
use std::process::ExitCode;
use std::{io, mem};
use trait_pages::{Stop, Text, check, declared_in, read_file, read_texts, sources_of, status_told};
use trait_texts::Options;

fn main(rt: HostRuntime) -> ExitCode {
    ExitCode::from(run(&rt))
}

// The exit status: 0 where all questions were answered, and 1 where one met a fault, or a graph was refused; 2 where the words, the
// texts or data are refused, and no question is asked; 3 where reading or writing failed, and 4 where memory was out. For 2, 3 and 4
// the reason stands on standard error.
fn run(rt: &HostRuntime) -> u8
    ensures { result ≤ 4 }
{
    let words = match all_words(rt) {
        Ok(words) => words,
        Err(_) => return status_told(Err(Stop::InputOrOutput), USAGE, rt.stderr()),
    };
    status_told(perform(rt, words.as_slice()), USAGE, rt.stderr())
}

// The program's name and its arguments.
fn all_words(rt: &HostRuntime) -> io::Result<Vec<String>> {
    let words: Vec<String> = std::env::args(rt)?.collect(rt.alloc())?;
    Ok(words)
}

// Whether all went well.
fn perform(rt: &HostRuntime, words: &[String]) -> Result<bool, Stop> {
    let order = order_of(rt.alloc(), words)?;
    match order.how {
        How::Check => perform_check(rt, order.files.as_slice(), order.options),
        how => {
            let texts = read_texts(rt, order.files.as_slice())?;
            tell(rt, how, texts.as_slice(), order.options)
        }
    }
}

// Checks the data in the first file by the texts of the others.
fn perform_check(rt: &HostRuntime, files: &[&str], options: Options) -> Result<bool, Stop> {
    let Some((path, files)) = files.split_first() else {
        return Err(Stop::Usage);
    };
    let data = read_file(rt, path)?;
    let texts = read_texts(rt, files)?;
    let mut out = rt.stdout();
    check(
        rt.alloc(),
        texts.as_slice(),
        options,
        path,
        data.as_slice(),
        &mut out,
    )
}

// Answers the questions of the texts.
fn tell(rt: &HostRuntime, how: How, texts: &[Text<'_>], options: Options) -> Result<bool, Stop> {
    let alloc = rt.alloc();
    let sources = sources_of(alloc, texts)?;
    let declared = declared_in(alloc, sources.as_slice(), options)?;
    let answered = ask_declared(alloc, declared)?;
    let mut out = rt.stdout();
    let told = match (how.form(), how) {
        (Some(form), _) => show(alloc, &answered, form, &mut out),
        (None, How::Rules) => tell_rules(alloc, &answered, &mut out),
        (None, _) => answer(alloc, &answered, &mut out, &mut rt.stderr()),
    };
    // The process ends with this: the system takes its memory back faster than piece by piece.
    mem::forget(answered);
    told
}
