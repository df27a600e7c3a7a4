//! The list of nodes that graphs of answers are made of: the runs that have ended, and open nodes for those that have
//! not. It is a crate of its own since it knows no stored result and no goal under evaluation, so it is proved beside the
//! stack.
//!
//! | File of `specs/` | Has |
//! |---|---|
//! | `Nodes` | what a node stands for, and what stays as a list of them grows |
//! | `View`, `Held` | how the nodes that are held are seen as the list of all nodes |
//! | `Collected`, `Marked` | what is left when nodes are let go, and how it is found out which these are |
//! | `Forgotten`, `Shown` | what is left when the nodes of some goals are let go, and what is seen of those whose memory is not yet |
//! | `HandedOut`, `Found` | which nodes have a graph to hand out, what that is a copy of, and how its nodes are found |
//! | `Shapes`, `Definite` | the nodes as the theory of open graphs sees them, and the graph of a definite result |
#![tactic(auto)]

pub mod copies;
mod forgotten_goals;
mod found;
mod held;
mod hints;
mod marking;
pub mod node_list;
pub mod room;
