//! What an evaluation of a goal promises beside its graph: a goal with a rank answers its plain value, the
//! number of frames has a bound, and a limit that is met has its price in frames. This crate is a theory: its
//! functions have empty bodies, and the contract of each is a theorem. It is a crate of its own since it knows
//! scripts and ranks alone: no stack of entries, no head, no node and no cache. So it is proved beside the crates
//! that do, and it stays when one of them changes.
//!
//! Its words:
//!
//! - A *frame* is a goal under evaluation with the replies that its present run has had. The frames stand in
//!   one list, the newest first. An *outcome* is what a question comes to, from wherever it is answered.
//! - A goal has a *rank* if its questions, and their questions, go no deeper than some number. Its *plain
//!   value* is its result where each question is answered with its own plain value. A frame or an outcome is
//!   *safe* if what it says of a goal with a rank is right: its results are plain values as long as it met
//!   no overflow, it met overflow only at a depth below the rank, and it is in no cycle.
//! - A list of frames *has room* if each goal's rank fits its depth. It *stays within* a bound if the frames
//!   that were started and those that may still be are no more.
//! - A limit is met where a question is asked at depth 0 or a goal has had all its runs. It is *paid* if as
//!   many frames were counted as the cheaper of these takes: one for each depth from the root's to 0, or one
//!   for each run.
//! - An evaluation is *enclosed* if its goal is one of some goals that no question leads out of, which are no
//!   more than its depth, and of which no overflow result was stored. It refuses no question, since its frames
//!   are of different goals; so a limit that it meets costs all runs of one goal.
//!
//! | File of `specs/` | Has |
//! |---|---|
//! | `Frames` | frames, outcomes, and how each move changes the newest frame |
//! | `Plain` | safe frames and outcomes; room for goals with a rank |
//! | `Starts` | how many frames and steps are still ahead, which is also a loop's measure |
//! | `Price` | the price of a limit |
//! | `Enclosed` | goals that no question leads out of, and frames that stay among them |
//! | `Evaluation`, `EvaluationLaws` | the moves, and all of this as one invariant, `IsEvaluating` |
//! | `Mirror` | the goals of a search, seen as frames |
//!
//! That each move keeps one of the four is said by the lemmas of `proofs/Plains`, `Counts`, `Prices` and `Enclosed`.
//!
//! A search has no frames of this kind but items of its own, one for each goal under evaluation. `Mirror` says
//! how its items are seen as frames, `Mirror.Waits` is its loop's invariant and `Mirror.work` its measure, and
//! `proofs/Mirrors` has one lemma for each branch of the loop.
#![tactic(auto)]

pub mod evaluation;
