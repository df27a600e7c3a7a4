//! Goals that their rules alone decide. This crate is a theory: its functions have empty bodies, and the contract of
//! each is a theorem. It knows scripts and graphs, and no search. Where finitely many goals ask each other alone, and
//! come to yes or no after answers that are yes or no, each of them has a proof graph or a refutation graph; that none
//! has both is `law::never_both` of `search_context`.
//!
//! | File of `specs/` | Has |
//! |---|---|
//! | `Closed` | lists of goals that no question leads out of; goals that have a graph |
//! | `Given` | the same where the truth of some questions is given |
//! | `Kept` | rules that change, and goals that stay as they were |
//!
//! How the graphs come about is said by the lemmas of `proofs/`: `Runs` for a script that is answered as its questions
//! are true, `Growth` and `Rounds` for the places of the list that are won or lost, `Built`, `Steps` and `Reasons` for
//! the graphs that are made of these, and `Kept` for graphs where rules change. `proofs/LoopExample` shows that the
//! premises can be met.
#![tactic(auto)]

pub mod law;
