//! The nodes: the runs of goals that have ended, which the graphs of answers are made of.
ghost use Rattle.std.specs.Prelude.{◌≡◌, ◌∷◌, ◌++◌, ◌≤◌, [], count_by, length, IfOk, OnErr, IfSome, IsSome};
ghost use Rattle.std.specs.Option.{is_some, option_map};
ghost use Rattle.global_cache.specs.Below.{verdicts, open_node as new_node, open_goal, finished_node, with_run, IsRun, KeepsNodes, KeepsFinished, KeepsGoals, HasGrown, ended_run, run_of, ended_node, is_held};

use crate::GlobalCache;
use search_context::context::{Cx, Delegate, Edge, NoMemory, Node, NodeId, Reply};

impl<D: Delegate> GlobalCache<D> {
    /// Appends an open node of the goal and answers its number, which counts from 0. `NoMemory` leaves
    /// the cache as it was.
    pub fn open_node(&mut self, input: <D::Cx as Cx>::Input) -> Result<NodeId, NoMemory>
        ensures node { IfOk result (λ node. node.0 ≡ length self.old.nodes) }
        ensures opened { IfOk result (λ _.
            self.new ≡ record self.old { nodes = self.old.nodes ++ new_node input ∷ [] }) }
        ensures refused { OnErr result (self.new ≡ self.old) }
        ensures kept { KeepsNodes self.old.nodes self.new.nodes }
        ensures goals { KeepsGoals self.old.nodes self.new.nodes }
        ensures grown { HasGrown (verdicts D.Cx.Cx) self.old.nodes self.new.nodes }
    {
        Ok(NodeId(self.nodes.push(input)?))
    }

    /// Whether the node is in the list and its run has not ended.
    pub fn node_is_open(&self, node: NodeId) -> bool
        ensures { result ≡ is_some (open_goal self.now.nodes node.0) }
    {
        self.nodes.is_open(node.0)
    }

    /// Ends the run of an open node. The replies stand in their order, the oldest first. The edges are
    /// the questions that a definite result rests on, in the order of asking. It takes no memory.
    pub fn finish_node(
        &mut self,
        node: NodeId,
        replies: Vec<Reply<<D::Cx as Cx>::Result>>,
        edges: Vec<Edge<<D::Cx as Cx>::Input>>,
        outcome: <D::Cx as Cx>::Result,
    )
        requires is_open { IsSome (open_goal self.old.nodes node.0) }
        requires is_run { IfSome (open_goal self.old.nodes node.0) (λ goal.
            IsRun (verdicts D.Cx.Cx) (D.script self.old.cx goal) self.old.nodes
            (ended_run replies.items edges.items outcome)) }
        ensures ended { self.new ≡ record self.old {
          nodes = with_run self.old.nodes node.0 (ended_run replies.items edges.items outcome);
        } }
        ensures kept { KeepsFinished self.old.nodes self.new.nodes }
        ensures goals { KeepsGoals self.old.nodes self.new.nodes }
        ensures grown { HasGrown (verdicts D.Cx.Cx) self.old.nodes self.new.nodes }
    {
        self.nodes.finish(node.0, replies, edges, outcome);
    }

    /// The node, if it is in the list and its run has ended: a run of its goal.
    pub fn node(&self, node: NodeId) -> Option<&Node<<D::Cx as Cx>::Input, <D::Cx as Cx>::Result>>
        ensures lent { option_map (λ n. ended_node n.now) result
            ≡ finished_node self.now.nodes node.0 }
        ensures is_run { IfSome result (λ n.
            IsRun (verdicts D.Cx.Cx) (D.script self.now.cx n.now.input) self.now.nodes
            (run_of n.now)) }
    {
        self.nodes.finished(node.0)
    }

    /// The number that the next node gets. It counts all nodes that ever were opened, also those that
    /// were let go.
    pub fn next_node(&self) -> usize
        ensures { result ≡ length self.now.nodes }
    {
        self.nodes.next_number()
    }

    /// How many nodes are held: those that were opened, whether their runs have ended or not, and were not let go. After a
    /// change of the rules the time may be linear in these.
    pub fn held_nodes(&self) -> usize
        ensures { result ≡ count_by is_held self.now.nodes }
    {
        self.nodes.held_count()
    }

    /// Of how many nodes there is memory: of those that are held, and of some that were let go since their goals are gone. A
    /// change of the rules gives their memory back later, at once with that of others.
    pub fn nodes_in_memory(&self) -> usize
        ensures { count_by is_held self.now.nodes ≤ result }
    {
        self.nodes.count_in_memory()
    }
}
