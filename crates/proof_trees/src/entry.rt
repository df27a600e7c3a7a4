//! The entries of a proof tree.

use path_kinds::path::PathKind;

/// One entry of a tree. A tree is a list of entries in the order in which things happened: an entry is a part of the
/// last one before it that has a smaller level. So a tree of any depth is written and dropped without recursion.
#[derive(Clone, Copy, Debug, PartialEq, Eq)]
pub struct Entry<I, R> {
    /// How far the entry is indented. The runs of a goal have the level of the question that asked it, and those of the
    /// root have 0. What a run has stands one level deeper, and the questions of its candidates two. The level stays at
    /// 18446744073709551615.
    pub level: usize,
    pub part: Part<I, R>,
}

/// What is recorded.
#[derive(Clone, Copy, Debug, PartialEq, Eq)]
pub enum Part<I, R> {
    /// A run of the goal begins. The first one of a goal has the number 1, and a rerun the next one. The number stays at
    /// 18446744073709551615.
    Run {
        /// The kind of the step by which the goal was asked, and none for the root.
        kind: Option<PathKind>,
        goal: I,
        number: usize,
    },
    /// A candidate begins. The number is the one that it has once it is finished.
    Candidate(usize),
    /// The candidate of this number is finished.
    FinishedCandidate(usize),
    /// The finished candidate of this number no longer counts.
    IgnoredCandidate(usize),
    /// A question was answered. The runs of its goal stand before it, at the same level. There is none where the question
    /// closed a cycle, was refused for want of depth, or was answered by a result that was known.
    Question {
        kind: PathKind,
        goal: I,
        result: R,
    },
    /// The run came to this result.
    RunEnd(R),
}
