//! Progress on standard error.

use std::io::{IsTerminal, Write};
use std::time::Instant;
use watched_runs::Progress;

/// Tells progress on standard error, on a line for each second that has passed. Where standard error is no terminal, nothing
/// is told.
#[derive(Drop)]
pub struct OnTerminal<'a> {
    rt: &'a HostRuntime,
    /// Where the time begins; none where nothing is to be told.
    start: Option<Instant>,
    /// How many seconds had passed when something was told last.
    seconds: u64,
}

impl<'a> OnTerminal<'a> {
    /// Progress whose time begins now.
    pub fn new(rt: &'a HostRuntime) -> OnTerminal<'a> {
        let start = if rt.stderr().is_terminal() {
            Instant::now(rt).ok()
        } else {
            None
        };
        OnTerminal {
            rt,
            start,
            seconds: 0,
        }
    }
}

impl Progress for OnTerminal<'_> {
    fn note(&mut self, done: usize, runs: u64) {
        let Some(start) = self.start else {
            return;
        };
        let Ok(passed) = start.elapsed(self.rt) else {
            return;
        };
        let seconds = passed.as_secs();
        if self.seconds < seconds {
            self.seconds = seconds;
            let _ = writeln!(
                self.rt.stderr(),
                "after {seconds} s: {done} done, {runs} runs"
            );
        }
    }
}
