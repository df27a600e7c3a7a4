//! What a goal search stands on, under one name: kinds of paths, what the search is told of goals, the
//! stack, and the two caches. Each stands in a crate of its own and is handed on here. What stands here
//! itself are the laws that tie the nodes of a cache to graphs of goals.
#![tactic(auto)]

pub mod law;
pub mod parts;

pub use global_cache;
pub use path_kinds::path;
pub use search_context::context;
