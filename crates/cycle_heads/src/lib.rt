//! What cycles are recorded by, none of which needs a context: places on the stack, counts of usages, and the
//! heads of answers and of candidates, in lists by depth.
//!
//! | File of `specs/` | Has |
//! |---|---|
//! | `Usages`, `Heads`, `Candidates` | counts of usages, and the lists of heads and candidates |
//! | `Places` | where a depth stands in such a list, or would stand |
//! | `HeadShapes` | the heads of an answer as the theory of open graphs sees them |
#![tactic(auto)]

mod by_depth;
pub mod candidates;
pub mod depth;
pub mod heads;
mod short_list;
pub mod usages;
