//! The rules of a search, each for one decision: which stored result or provisional entry is used, what becomes of a
//! goal whose run has ended and of its node, which provisional entries a popped goal leaves. And why the answers that
//! goals under evaluation have, the entries and the stored results stay right at each move.
//!
//! | File of `specs/` | Has |
//! |---|---|
//! | `Claims` | what answers and faults claim |
//! | `Results` | the stored results, as calls rely on them and change them |
//! | `Fates` | what becomes of the goals' results, and which stored ones a move may change |
//! | `Calls`, `Evaluating` | an outer call, and what holds of the goals under evaluation between two moves |
//! | `LookUp` | which stored result or provisional entry is used |
//! | `Moves` | a goal is pushed, closes a cycle, is run again, and popped |
//! | `Tallies` | what goals count of their heads, and which part of that their candidates count |
//! | `EndOfRun`, `Runs` | what becomes of a goal whose run has ended, and of its node |
//! | `Justified`, `Free` | why each definite answer is right; answers that rest on no goal under evaluation |
//! | `EntryShapes`, `Provisional` | provisional entries: why each may be used, and what becomes of them |
//! | `Live` | what goals, entries, results and replies lead to is live |
//! | `Decided` | goals whose answers are all yes or no |
//!
//! Of the proofs that belong to no single function, those in the folders `counts`, `records`, `justified`, `answers`
//! and `entries` of `proofs/` show what each move keeps true, and those in `collecting` what stays right where nodes are
//! let go. Those in `rebasing` show what a pop leaves of an entry, and those in `moves` what each move leads to.
#![tactic(auto)]

pub mod end_of_run;
pub mod look_up;
pub mod nodes;
pub mod rebase;
