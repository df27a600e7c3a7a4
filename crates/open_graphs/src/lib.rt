//! Why the answers of a goal search with cycles have finite graphs. This crate is a theory: its functions
//! have empty bodies, and the contract of each is a theorem. It knows nothing of goals and rules, and has
//! numbers in place of kinds, so that other crates can carry it to their own types.
//!
//! Its words:
//!
//! - *Nodes* stand in one list, to which nodes are added. A node is finished once, with a verdict and its edges, and
//!   never changes, but that one to which nothing leads any more may be let go. The *graph* of a node is all that is reached from it: finished nodes of one verdict,
//!   where each closed walk has the kind of that verdict's cycles, coinductive for yes and inductive for no.
//! - A goal under evaluation is an *entry* of the stack and has a node. While it is evaluated its edges are
//!   not known, so walks stop at its node, which is then called a *leaf*. What lies before the leaves is an
//!   *open graph*.
//! - A goal that is found on the stack is a *head*: the answer that it gets is only as true as the entry's
//!   result will be. So an answer records its heads, for each of them the kinds of the paths that lead to
//!   its leaf, and how often a cycle of each kind was answered by it.
//! - An answer with an open graph may be *used* over a stack where the recorded heads cover each path to a
//!   leaf, and each of these heads answered cycles of that kind with the answer's own verdict.
//! - A *provisional entry* is such an answer for later questions, with its highest head and the path kind from
//!   there. A *final answer* has no heads.
//! - The runs of a goal that is run again change its provisional result. The node of its answer is that of
//!   the first run of its last unbroken stretch of runs with the answer's verdict, and not that of its last
//!   run, whose cycles may lead to the earlier node.
//!
//! | File of `specs/` | Has |
//! |---|---|
//! | `Graph` | nodes, edges, walks and paths, the growing list, graphs |
//! | `Stack` | entries, leaves, path kinds from an entry, and the verdict that its cycles get |
//! | `Use`, `TakeOver` | heads; answers that may be used, and provisional entries |
//! | `Run` | a run of a goal, and what holds between its steps |
//! | `State`, `StateLaws`, `AnswerLaws` | the whole state, and that each move of an evaluation keeps it sound |
//! | `Collected` | the list once nodes were let go to which nothing leads any more |
//! | `Rebased` | the rule by which provisional entries outlive their highest head |
//!
//! How answers come about and what they outlast is said by the lemmas of `proofs/`: `Answers`, `Finish`,
//! `Keep` and `Closed` for answers that may be used, `Store` and `Rebase` for provisional entries, `Runs` for runs, `Collecting` for nodes that are let go.
//!
//! A search carries `State.IsSoundState` along by one theorem of `state` for each of its moves, and has the graph
//! of an answer by `state::final_is_graph`. Beside that a search has to show what this theory does not
//! speak of: that an edge leads to a node of the goal that it asks, and that a node's goal is proved or
//! refuted by its edges' questions.
//!
//! Of a count of usages the theory asks only whether it is zero. A path of no step is not among the paths of
//! a head, so the rule of rebasing may add more paths than `Rebased` asks for. Answers that are neither yes
//! nor no are not in the state. Which provisional entries the rule drops is not said here.
//!
//! `proofs/RerunExample` puts the definitions to use on a small search.
#![tactic(auto)]

pub mod rebasing;
pub mod state;
