//! What is told of a program's progress.

/// Is told how far the program has come, more often than anyone wants to read.
pub trait Progress: Drop {
    /// So many questions are answered, or graphs checked, and so many runs of goals were started for questions.
    fn note(&mut self, done: usize, runs: u64);
}

/// Tells nothing.
#[derive(Clone, Copy)]
pub struct NoProgress;

impl Progress for NoProgress {
    fn note(&mut self, _done: usize, _runs: u64) {}
}
