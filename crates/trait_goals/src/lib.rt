//! Goals of traits: whether a type implements a trait, as a goal with candidates.
//!
//! A goal has a number, and so has its type. Its candidates are the rules that are for its type, and each asks the goals of its
//! clauses, with the types that stand in the rule's shapes. What a goal asks may be new, so goals are made before they are asked:
//! as many as are wanted, and where goals never end, some are left unknown, and say maybe.
//!
//! | File of `specs/` | Has |
//! |---|---|
//! | `Implementing` | when a type implements a trait; it names no goal and no search |
//! | `Instances`, `Finding` | the types that stand in the shapes of a rule, and what was found of a rule and a type |
//! | `Trying` | what became of the rules that were tried for a goal |
//! | `Known` | what is known of a goal, in words of rules and types |
//! | `Decided` | tables of which each question can be answered yes or no |
//! | `Rule` | the candidates of a goal as a search takes them |
#![tactic(auto)]

mod asked;
mod deciding;
mod delegate;
mod goals;
mod growing;
mod instance;
mod scout;
mod trying;

pub use asked::{Asked, Candidate, Candidates};
pub use delegate::{GoalsDelegate, GoalsOf};
pub use goals::Goals;
pub use scout::make_known;
