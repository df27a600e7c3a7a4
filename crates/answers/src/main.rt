//! Answers questions about rules, which are read from standard input, as `goals` does, and checks no graph.
#![tactic(auto)]

use std::process::ExitCode;

fn main(rt: HostRuntime) -> ExitCode {
    ExitCode::from(table_runs::answer(rt.alloc(), rt.stdin(), &mut rt.stdout(), rt.stderr()))
}
