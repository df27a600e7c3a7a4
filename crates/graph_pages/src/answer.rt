//! What a question came to, and whether the graph of its answer is accepted.
ghost use Rattle.std.specs.Prelude.{◌≡◌, ◌≢◌, ◌↔◌, IfOk, IfSome, IsTrue, Ok};
ghost use Rattle.search_context.specs.declared.context.Verdict.TheVariants.{Neither};
ghost use Rattle.graph_pages.specs.Below.{IsValidFor, verdicts};
ghost use Rattle.graph_pages.specs.Checked.{ShowsNoGraph, outcome_of, reason_of, verdict_of};

use delegate_parts::Builder;
use graph_check::check_graph;
use rule_tables::{Goal, Outcome};
use search_context::context::{Cx, Delegate, Fault, NoMemory, Node, ProofGraph};
use std::alloc::Global;
use watched_runs::Reason;

/// What a question came to.
#[derive(Drop)]
pub enum Came {
    /// A yes or a no, with its graph, which the checker accepted.
    Graph {
        outcome: Outcome,
        nodes: Vec<Node<Goal, Outcome>>,
    },
    /// A maybe or an overflow.
    NoGraph {
        outcome: Outcome,
        reason: Reason<Goal>,
    },
    /// A yes or a no whose graph is missing or was refused. No search comes to that.
    Unchecked(Outcome),
    Fault(Fault<Goal, Outcome>),
}

impl Came {
    ghost use Rattle.std.specs.Prelude.{◌≡◌};
    ghost use Rattle.graph_pages.specs.Shown.{is_fine};

    /// Whether the question was answered, and its graph accepted if it has one.
    pub fn is_fine(&self) -> bool
        ensures { result ≡ is_fine self.now }
    {
        match self {
            Came::Graph { .. } | Came::NoGraph { .. } => true,
            Came::Unchecked(_) | Came::Fault(_) => false,
        }
    }
}

/// What the question came to where no graph comes with its outcome. The reason is told of one that is neither yes nor no.
pub fn without_graph(outcome: Outcome, reason: Reason<Goal>) -> Came
    ensures outcome { outcome_of result ≡ Ok outcome }
    ensures reason { IfSome (reason_of result) (λ told. told ≡ reason) }
    ensures no_graph { ShowsNoGraph outcome result }
    ensures unchecked { verdict_of outcome ≢ Neither → result ≡ Came.Unchecked outcome }
{
    match outcome {
        Outcome::Yes | Outcome::No => Came::Unchecked(outcome),
        Outcome::Maybe | Outcome::Overflow => Came::NoGraph { outcome, reason },
    }
}

/// Whether the checker accepts the graph for the goal and the outcome.
pub fn accepts<X, D>(
    alloc: Global,
    cx: X,
    graph: &ProofGraph<X>,
    goal: Goal,
    outcome: Outcome,
) -> Result<bool, NoMemory>
where
    X: Cx<Input = Goal, Result = Outcome>,
    D: Delegate<Cx = X, ProofTreeBuilder = Builder>,
    ensures { IfOk result (λ accepted. IsTrue accepted ↔
        IsValidFor (verdicts X.Cx) (verdict_of outcome) (D.script cx) graph.now.nodes.items goal) }
{
    // The frames that the check starts are none of the search's.
    let mut builder = Builder::new(true);
    check_graph::<D>(alloc, cx, graph, goal, outcome.verdict(), &mut builder)
}
