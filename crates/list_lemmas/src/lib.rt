//! Lemmas on lists that the library has not: no code. It is a crate of its own, so that the theories and what is searched by
//! share them.
//!
//! | File of `proofs/` | Has |
//! |---|---|
//! | `Lists` | what stands at an index: at the end of an append, and after a write |
//! | `Members` | what is in a list with one more, in one that is mapped, and in one that is filtered |
#![tactic(auto)]
