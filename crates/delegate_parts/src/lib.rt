//! Parts that delegates share: results that are yes, no, maybe or overflow, with what a search asks of results and the
//! laws of that; a builder that counts frames; and a scope that is never given.
//!
//! Of these a context and a delegate are made here, but for what differs from one kind of goals to another. For goals of
//! your own write `impl Goals`, which says what they mean, and `impl Frames`, which says how they are worked out:
//!
//!     impl Goals for Mine { .. }
//!     impl Frames for Mine { type Cx = ContextOf<Mine>; .. }
//!     let mut cache = GlobalCache::<DelegateOf<Mine, 8, 1>>::new(alloc, ContextOf(mine));
//!
//! A context that stands for itself, say because its results have tokens, has an `impl Cx` and an `impl Outcomes` in
//! place of the first, and is named as `type Cx` in the second.
#![tactic(auto)]

pub mod builder;
pub mod frames;
pub mod goals;
pub mod lends;
pub mod outcome;

pub use builder::Builder;
pub use frames::{DelegateOf, Frames};
pub use goals::{ContextOf, Goals, Outcomes};
pub use lends::Lends;
pub use outcome::Outcome;

/// The scope of a delegate that validates no stored result: it is never given.
#[derive(Drop)]
pub enum NoScope {}
