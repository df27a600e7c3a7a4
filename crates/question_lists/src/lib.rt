//! Goals whose rule is a list of questions: a goal holds where all of them do, or where any one of them does.
//!
//! Many delegates need no more. Such a one says of each goal which questions it has and whether it needs all or any of
//! them, by an `impl QuestionLists`; its context and its frames, with all laws that a search asks of them, are made
//! here. What it reads stands behind a lender, so that the function which owns the cache is generic (`shapes` and
//! `docs/CALLING.md` show one whole):
//!
//!     impl<L: Lends<Mine>> QuestionLists for MineOf<L> { .. }
//!
//!     fn ask<L: Lends<Mine>>(alloc: Global, lender: L, goal: Goal, depth: usize) -> .. {
//!         let context = ContextOf(Listed(MineOf { lender }));
//!         let mut cache = GlobalCache::<ListsDelegate<MineOf<L>, 8, 1>>::new(alloc, context);
//!         ..
//!     }
//!
//! | File of `specs/` | Has |
//! |---|---|
//! | `Needs` | what proves and refutes a goal |
//! | `Frame`, `Standing` | the frame of a goal, which asks its questions in order, and where it stands |
//! | `Meanings`, `Told`, `Runs` | the laws of contexts and delegates, with their proofs |
//! | `Derivations` | when goals hold, and when not, that ask over steps of several kinds |
//!
//! `proofs/` has lemmas for a caller's proof. `Ranked`: that goals whose questions go down have a rank, what their plain
//! values say, and which lists are decisive. And from a graph to a caller's words: `Reached` for the goals of a graph,
//! `Walks` for recursion along it, and by these `Inductive`, `Coinductive` and `Mixed` for goals that ask over steps of
//! these kinds, and `Ambiguous` for goals that say maybe.
#![tactic(auto)]

pub mod frame;
pub mod lists;
pub mod needs;

pub use delegate_parts::ContextOf;
pub use lists::{Listed, ListsContext, ListsDelegate, QuestionLists};
pub use needs::Needs;
