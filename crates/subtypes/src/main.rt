//! Answers which types of a text are below which. The types and the questions are read from standard input.
#![tactic(auto)]

use std::process::ExitCode;

fn main(rt: HostRuntime) -> ExitCode {
    ExitCode::from(type_runs::run(rt.alloc(), rt.stdin(), &mut rt.stdout(), rt.stderr()))
}
