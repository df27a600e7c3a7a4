//! Types, traits and impls, and which rules a trait has for a type.
//!
//! A type is a constructor with arguments, as `Vec<i32>`, and stands here as a number: equal types have one number. An impl
//! is a rule: the shape of the types that it is for, and what else has to hold of such a type.
//!
//! | File of `specs/` | Has |
//! |---|---|
//! | `Numbered` | what it is to have numbers |
//! | `Terms` | types, and which one a number stands for |
//! | `Rules` | which rules a trait has for a type, and when one is a rule for it |
#![tactic(auto)]

mod given;
mod made;
mod numbered;
mod rules;
mod terms;

pub use made::Made;
pub use numbered::{Key, Numbered};
pub use rules::{Bound, Clause, Constructor, Listed, Rule, Rules, Shape, Trait};
pub use terms::Terms;
