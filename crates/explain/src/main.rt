//! Shows why goals hold or do not hold: each answer with its graph, as text, in Graphviz's language or as data. It also
//! checks such data.
#![tactic(auto)]

ghost use Rattle.std.specs.Prelude.{◌≤◌};

use explain_terminal::{OnTerminal, Order, Task, order_of};
use shown_graphs::{check, explain};
use std::fs::File;
use std::io;
use std::io::{Read, Write};
use std::process::ExitCode;

fn main(rt: HostRuntime) -> ExitCode {
    ExitCode::from(run(rt))
}

fn run(rt: HostRuntime) -> u8
    ensures { result ≤ 4 }
{
    let Ok(words) = all_words(&rt) else {
        let _ = writeln!(rt.stderr(), "the arguments could not be read");
        return 2;
    };
    match order_of(&rt, words.as_slice()) {
        Ok(Order { task, file: None }) => perform(&rt, task, rt.stdin()),
        Ok(
            Order {
                task,
                file: Some(path),
            },
        ) => perform_on_file(&rt, task, path),
        Err(status) => status,
    }
}

// The task on the file of this path. One that cannot be opened is told, and the status is that of input that cannot be read.
fn perform_on_file(rt: &HostRuntime, task: Task, path: &str) -> u8
    ensures { result ≤ 4 }
{
    match File::open(rt, path) {
        Ok(file) => perform(rt, task, file),
        Err(error) => {
            let _ = writeln!(rt.stderr(), "{path} cannot be opened: {error}");
            3
        }
    }
}

fn perform<R: Read + Drop>(rt: &HostRuntime, task: Task, input: R) -> u8
    ensures { result ≤ 4 }
{
    let alloc = rt.alloc();
    let mut out = rt.stdout();
    let progress = OnTerminal::new(rt);
    match task {
        Task::Explain(form) => explain(alloc, form, input, &mut out, rt.stderr(), progress),
        Task::Check => check(alloc, input, &mut out, rt.stderr(), progress),
    }
}

// The program's name and its arguments.
fn all_words(rt: &HostRuntime) -> io::Result<Vec<String>> {
    let words: Vec<String> = std::env::args(rt)?.collect(rt.alloc())?;
    Ok(words)
}
