//! Delegates around another one: goals, scripts, results and limits are those of the other one, so goals come to what they
//! come to with it, and builders and frames are more than its own. What such a delegate adds is an `impl Wrapper`:
//!
//!     impl<D: Delegate> Wrapper<D> for Mine { .. }
//!     let mut cache = GlobalCache::<Wrapped<D, Mine>>::new(alloc, cx);
#![tactic(auto)]

mod wrapped;
mod wrapper;

pub use wrapped::Wrapped;
pub use wrapper::Wrapper;
