//! A graph as words, that is numbers: what stands in an array of a caller that holds no graphs. The words of each node
//! follow one another, the root's first:
//!
//!     the goal; its outcome, 0 yes, 1 no, 2 maybe, 3 overflow;
//!     how many replies there are; each reply: 0 to 3 an answer with this outcome, 4 noted, 5 begin;
//!     how many edges there are; each edge: its kind, 0 inductive, 1 unknown, 2 coinductive, 3 forced ambiguity,
//!     and its target, the place of a node in this graph.
//!
//! An edge's goal is that of its target, and so has no word.
//!
//! | File of `specs/` | Has |
//! |---|---|
//! | `Words` | the words that spell nodes, and which nodes are read of words |
//! | `Fault` | why words are not read |
#![tactic(auto)]

mod fault;
mod reading;
mod writing;

pub use fault::WordsFault;
pub use reading::nodes_of_words;
pub use writing::words_of_nodes;
