//! Answers that are shown by their graphs, which are handed out and checked.
ghost use Rattle.std.specs.Prelude.{◌≡◌, [], IsTrue, IfOk, IsPermutation, None, Some};
ghost use Rattle.std.specs.HashMap.{Updates};
ghost use Rattle.std.specs.Map.{remove_entry};
ghost use Rattle.table_runs.specs.Below.{is_among, IsDefinite, HasGraph, KeepsRule, verdicts};
ghost use Rattle.table_runs.specs.Right.{AreShown, SomeGraphShows};
ghost use Rattle.table_runs.specs.Shown.{ForgetsGone};

use crate::program::parts::{Shown, is_first, is_part_shown, is_remembered, part_of, remember};
use delegate_parts::{Builder, Outcome};
use determined::law::graphs_stay;
use graph_check::check_graph;
use rule_tables::Goal;
use search_parts::context::{Cx, Delegate, NoMemory, NodeId};
use search_parts::global_cache::GlobalCache;
use std::alloc::Global;
use std::collections::{HashMap, HashSet};
use std::marker::Model;

/// Goals with the outcomes that were shown, each by the graph of a node; of each goal the last one. A finished node never
/// changes, so none has to be shown again, unless the rules change; nor has one that is reached from a node which is shown
/// later.
#[derive(Drop)]
pub struct ShownNodes {
    shown: Shown,
}

impl Model for ShownNodes {
    ghost use Rattle.std.specs.Prelude.{List};
    ghost use Rattle.table_runs.specs.Below.{Goal, NodeId, Outcome};

    ghost Value = { List (Goal × (Outcome × NodeId)) };

    ghost view = { λ s. s.shown.entries };
}

impl ShownNodes {
    /// Nothing was shown. It takes no memory yet.
    pub fn new(alloc: Global) -> ShownNodes
        ensures { result ≡ [] }
    {
        ShownNodes {
            shown: HashMap::new(alloc),
        }
    }

    /// Whether the graph of the goal's node shows the outcome, or did so before.
    pub(crate) fn show<X, D>(
        &mut self,
        alloc: Global,
        cache: &GlobalCache<D>,
        goal: Goal,
        outcome: Outcome,
        node: NodeId,
    ) -> Result<bool, NoMemory>
    where
        X: Cx<Input = Goal, Result = Outcome>,
        D: Delegate<Cx = X, ProofTreeBuilder = Builder>,
        ensures accepted { HasGraph (verdicts X.Cx) cache.now.nodes goal outcome (Some node) →
            IsDefinite (verdicts X.Cx) outcome →
            IfOk result (λ shown. IsTrue shown) }

        // Whatever the node is, nothing else is shown or remembered than what the checker accepts.
        ensures shown { AreShown X.Cx cache.now.cx self.old →
            IfOk result (λ shown. IsTrue shown →
            SomeGraphShows X.Cx cache.now.cx goal outcome) }
        ensures remembered { AreShown X.Cx cache.now.cx self.old →
            AreShown X.Cx cache.now.cx self.new }
    {
        if is_remembered(&self.shown, goal, outcome, node) {
            return Ok(true);
        }
        if self.shows_part::<X, D>(alloc, cache, goal, outcome, node)? {
            return Ok(true);
        }
        if !is_shown::<X, D>(alloc, cache, goal, outcome, node)? {
            return Ok(false);
        }
        self.shown.insert(goal, (outcome, node))?;
        Ok(true)
    }

    // Whether the checker accepts what is new in the graph of the goal's node. Then all of that is remembered.
    fn shows_part<X, D>(
        &mut self,
        alloc: Global,
        cache: &GlobalCache<D>,
        goal: Goal,
        outcome: Outcome,
        node: NodeId,
    ) -> Result<bool, NoMemory>
    where
        X: Cx<Input = Goal, Result = Outcome>,
        D: Delegate<Cx = X, ProofTreeBuilder = Builder>,
        ensures shown { AreShown X.Cx cache.now.cx self.old →
            IfOk result (λ shown. IsTrue shown → SomeGraphShows X.Cx cache.now.cx goal outcome) }
        ensures remembered { AreShown X.Cx cache.now.cx self.old →
            AreShown X.Cx cache.now.cx self.new }
    {
        let sort = cache.cx().sort(outcome);
        let Some(part) = part_of::<X, D>(alloc, cache, &self.shown, node, sort)? else {
            return Ok(false);
        };
        if !is_part_shown::<X, D>(alloc, cache.cx(), &part, sort)? {
            return Ok(false);
        }
        remember(&mut self.shown, &part)?;
        Ok(is_first(&part, goal, outcome))
    }

    /// Forgets what was shown of goals that are gone, in time proportional to these. It takes no memory. Where rules change, a
    /// goal is gone if its rules are other ones than they were, or ask a goal that is gone: what was shown of all others is
    /// shown by the rules after.
    pub fn forget<X: Cx<Input = Goal, Result = Outcome>>(&mut self, gone: &HashSet<Goal>)
        ensures left { ForgetsGone ⟦<Goal as PartialEq>⟧.eq
            (is_among ⟦<Goal as PartialEq>⟧.eq gone.now.keys) self.old self.new }
        ensures stay { (before after : X) →
            KeepsRule (is_among ⟦<Goal as PartialEq>⟧.eq gone.now.keys) (X.proves before) (X.proves after) →
            KeepsRule (is_among ⟦<Goal as PartialEq>⟧.eq gone.now.keys) (X.refutes before) (X.refutes after) →
            AreShown X.Cx before self.old → AreShown X.Cx after self.new }
    {
        graphs_stay::<X>();
        forget_goals(&mut self.shown, gone);
    }
}

// Forgets what was shown of goals that are gone.
fn forget_goals(shown: &mut Shown, gone: &HashSet<Goal>)
    ensures { ForgetsGone ⟦<Goal as PartialEq>⟧.eq (is_among ⟦<Goal as PartialEq>⟧.eq gone.now.keys)
        shown.old.entries shown.new.entries }
{
    for goal in gone {
        forget_goal(shown, goal);
    }
}

// Forgets what was shown of the goal.
fn forget_goal(shown: &mut Shown, goal: &Goal)
    ensures updates { Updates ⟦<Goal as PartialEq>⟧.eq shown.old shown.new goal.now None }
    ensures entries { IsPermutation (remove_entry (⟦<Goal as PartialEq>⟧.eq goal.now) shown.old.entries)
        shown.new.entries }
{
    shown.remove(goal);
}

/// Whether a graph of the node is handed out, and the checker accepts it for the goal and the outcome.
fn is_shown<X, D>(
    alloc: Global,
    cache: &GlobalCache<D>,
    goal: Goal,
    outcome: Outcome,
    node: NodeId,
) -> Result<bool, NoMemory>
where
    X: Cx<Input = Goal, Result = Outcome>,
    D: Delegate<Cx = X, ProofTreeBuilder = Builder>,
    ensures accepted { HasGraph (verdicts X.Cx) cache.now.nodes goal outcome (Some node) →
        IsDefinite (verdicts X.Cx) outcome →
        IfOk result (λ shown. IsTrue shown) }

    // Whatever the node is, nothing else is shown than what the checker accepts.
    ensures shown { IfOk result (λ shown. IsTrue shown →
        SomeGraphShows X.Cx cache.now.cx goal outcome) }
{
    let Some(graph) = cache.graph_of(node)? else {
        return Ok(false);
    };
    let cx = cache.cx();
    // The frames that the check starts are none of the search's.
    let mut builder = Builder::new(true);
    check_graph::<D>(alloc, cx, &graph, goal, cx.sort(outcome), &mut builder)
}
