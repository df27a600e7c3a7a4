//! Where two runs of each goal are enough. This crate is a theory: its functions have empty bodies, and the contract of each
//! is a theorem. It speaks of calls of a search graph by what they did (`HasRun` of `search_graph`), and no crate of the
//! search stands on it. Where scripts decide, there is one yes and one no, no question leads out of some goals, and either no
//! provisional entry is used or goals that reach each other ask by one kind of step, no goal of these is run a third time. So
//! no limit is met, and the answer decides its goal.
//!
//! | File of `specs/` | Has |
//! |---|---|
//! | `Enough` | calls for which two runs of a goal are enough, and lists of such calls |
//! | `Lone`, `Settled` | when two runs of a goal are enough, and what answers and stored results rest on then |
//! | `OneKind`, `Kinds` | goals that ask by one kind of step, and what holds then of the stack, heads and nested goals |
//! | `Apart` | provisional entries are of goals that are not worked out meanwhile |
//! | `Older`, `Leads` | entries older than a goal, and what walks come to that stop there |
//! | `Evaluations` | what holds of an evaluation between two of its moves |
//! | `AtLimit` | whether a limit is met where a run ends |
//!
//! Of the lemmas of `proofs/`, those in `kinds` show what each move keeps of the kinds of questions, those in `settled` what
//! it keeps of what answers and stored results rest on, and those in `questions` and `ends` what a question and the end of a
//! run keep of both. Those in `turns` go on to each turn and to the whole call, and those in `calls` to lists of calls.
#![tactic(auto)]

pub mod law;
