//! Goals that hold where any of their candidates does, and a candidate where all its questions do.
//!
//! A trait solver's goals are such: each impl is a candidate, and its where-clauses are its questions. A delegate of them
//! says which candidates a goal has and which questions each of these asks, by an `impl CandidateLists`; its context and
//! its frames, with all laws that a search asks of them, are made here. What it reads stands behind a lender, as with
//! `question_lists` (`docs/CALLING.md` shows both):
//!
//!     impl<L: Lends<Mine>> CandidateLists for MineOf<L> { .. }
//!
//!     fn ask<L: Lends<Mine>>(alloc: Global, lender: L, goal: Goal, depth: usize) -> .. {
//!         let context = ContextOf(AnyOf(MineOf { lender }));
//!         let mut cache = GlobalCache::<CandidatesDelegate<MineOf<L>, 8, 1>>::new(alloc, context);
//!         ..
//!     }
//!
//! A delegate with a context of its own, as that of `rule_tables`, takes `CandidateFrame` and the laws alone.
//!
//! | File of `specs/` | Has |
//! |---|---|
//! | `Candidate` | candidates, and what proves and refutes a goal that has these |
//! | `Frame`, `Standing` | the frame of a goal, which goes through its candidates, and where it stands |
//! | `Packed` | how a frame keeps its state |
//! | `Laws` | the laws of contexts and delegates, with their proofs |
#![tactic(auto)]

pub mod frame;
pub mod lists;

pub use delegate_parts::ContextOf;
pub use frame::CandidateFrame;
pub use lists::{AnyOf, CandidateLists, CandidatesContext, CandidatesDelegate};
