//! The search graph: it evaluates goals that ask other goals.
//!
//! | File of `specs/` | Has |
//! |---|---|
//! | `Graph` | what a search graph is between its calls |
//! | `Fates` | which stored results stay while a goal is worked out |
//! | `Ran` | what a call does with its goal: a push and then turns, each of which is a move |
//! | `Called` | what a call does from its beginning to its end; all promises follow of this |
//! | `LimitsMet` | which limits it meets |
//! | `Reaching` | which goals ask which |
//! | `Faults` | whose fault it is that a call fails |
//! | `Left` | what is left of the nodes that a call wrote |
//! | `Laws` | the laws of a delegate, on which all of that rests |
//! | `Calls` | what a move, and the whole of an evaluation, comes to in whatever call it is made |
//! | `Worked` | what a goal that is worked out comes to |
//! | `Turns` | what a turn of the loop comes to, after which nodes may be let go |
//! | `Lists` | what a list of queries is answered with |
#![tactic(auto)]

pub mod graph;
pub mod law;

pub use graph_check;
