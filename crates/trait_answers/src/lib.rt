//! Which types implement which traits, in words of types and rules alone.
//!
//! A goal is told by its number among the goals of `trait_goals`. A yes says that its type
//! implements its trait, and a no that it does not, by the rules that were given. A goal whose
//! candidates are not known says maybe, and so may one that asks it. Then `was_wanted` tells which
//! goals these were: make their candidates known, and ask anew. Where all goals are decided, and the
//! depth is at least their number, each answer is yes or no.
//!
//! | File of `specs/` | Has |
//! |---|---|
//! | `Answered` | what a yes and a no say of a goal, and when one of them is sure to come |
//! | `Deciding` | what is kept true of the stored answers, so that the next question is answered, too |
//! | `Asking` | the goals that are asked, and which of them were wanted |
#![tactic(auto)]

mod answers;
mod ask;

pub use answers::{Answered, Answers};
pub use delegate_parts::Outcome;
