//! What is watched of one run.

use crate::watch::Cut;
use search_context::path::PathKind;

/// A question that waits for its answer.
#[derive(Clone, Copy)]
pub(super) struct Question<I> {
    pub(super) kind: PathKind,
    pub(super) goal: I,
    /// How many frames had started when it was asked.
    pub(super) started: u64,
}

/// A run, as far as it has gone: why it comes to neither yes nor no, if it does. A run does so where one of its candidates
/// has an answer that is neither, and none that is no.
#[derive(Clone, Copy)]
pub(crate) struct RunWatch<I> {
    pub(super) goal: I,
    /// The question that was asked last.
    pub(super) question: Option<Question<I>>,
    /// An answer of the open candidate was no.
    fails: bool,
    /// Why the open candidate neither holds nor fails.
    in_candidate: Option<Cut<I>>,
    /// Why a finished one does not.
    pub(super) cut: Option<Cut<I>>,
}

impl<I: Copy> RunWatch<I> {
    pub(crate) fn new(goal: I) -> RunWatch<I> {
        RunWatch {
            goal,
            question: None,
            fails: false,
            in_candidate: None,
            cut: None,
        }
    }

    pub(super) fn asking(self, question: Question<I>) -> RunWatch<I> {
        RunWatch {
            question: Some(question),
            ..self
        }
    }

    /// A candidate begins.
    pub(super) fn entering(self) -> RunWatch<I> {
        RunWatch {
            fails: false,
            in_candidate: None,
            ..self
        }
    }

    /// A question of the open candidate was answered no.
    pub(super) fn failing(self) -> RunWatch<I> {
        RunWatch {
            fails: true,
            ..self
        }
    }

    /// One was answered neither yes nor no.
    pub(super) fn cut_off(self, cut: Cut<I>) -> RunWatch<I> {
        RunWatch {
            in_candidate: Some(first_of(self.in_candidate, cut)),
            ..self
        }
    }

    /// The open candidate is finished.
    pub(super) fn finishing(self) -> RunWatch<I> {
        RunWatch {
            in_candidate: None,
            cut: finished(self.cut, self.fails, self.in_candidate),
            ..self
        }
    }
}

// Why a finished candidate does not hold, after one more is finished, which fails or was cut off here.
fn finished<I: Copy>(
    cut: Option<Cut<I>>,
    fails: bool,
    in_candidate: Option<Cut<I>>,
) -> Option<Cut<I>> {
    match in_candidate {
        Some(other) if !fails => Some(first_of(cut, other)),
        _ => cut,
    }
}

// The earlier one, unless only the later one says where questions were cut off first.
fn first_of<I: Copy>(earlier: Option<Cut<I>>, later: Cut<I>) -> Cut<I> {
    match earlier {
        Some(cut) if cut.cause.is_first() || !later.cause.is_first() => cut,
        _ => later,
    }
}
