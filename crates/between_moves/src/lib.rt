//! What holds of an evaluation between two of its moves, and what each move may change. This crate has no code, but the
//! words and lemmas that both kinds of moves need: what a question comes to (`search_questions`) and how a run ends
//! (`search_ends`) are checked beside each other.
//!
//! | File of `specs/` | Has |
//! |---|---|
//! | `Evaluations` | what holds of an evaluation between two of its moves, and what the moves lead to |
//! | `Scopes` | which goals hold a scope |
#![tactic(auto)]
