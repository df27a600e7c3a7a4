//! Shows how questions about rules are answered: each one's proof tree, and then its answer. The rules are read from
//! standard input, as `goals` reads them.
#![tactic(auto)]

mod program;

use std::process::ExitCode;

fn main(rt: HostRuntime) -> ExitCode {
    ExitCode::from(program::run(rt.alloc(), rt.stdin(), &mut rt.stdout(), rt.stderr()))
}
