//! The parts of a search: the goals under evaluation, how deep they may go, and what is recorded of
//! cycles through them.

pub use cycle_heads::candidates::CandidateHeadUsages;
pub use cycle_heads::heads::{CycleHead, CycleHeads};
pub use cycle_heads::usages::HeadUsages;
pub use cycle_heads::{candidates, heads, usages};
pub use provisional_cache;
pub use provisional_cache::{ProvisionalCache, ProvisionalCacheEntry, RebaseReason};
pub use search_stack::depth::{AvailableDepth, StackDepth};
pub use search_stack::nested_goals::NestedGoals;
pub use search_stack::result::EvaluationResult;
pub use search_stack::stack::{EntryState, Stack, StackEntry};
pub use search_stack::{depth, nested_goals, result, stack};
