//! Holds a conversation about rules over standard input and output.
#![tactic(auto)]

pub use conversations as conversation;
use std::process::ExitCode;

fn main(rt: HostRuntime) -> ExitCode {
    ExitCode::from(conversation::converse(rt.alloc(), rt.stdin(), &mut rt.stdout(), rt.stderr()))
}
