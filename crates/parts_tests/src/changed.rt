//! Tests of a cache whose rules change: what is stored of goals that are gone is let go, with their nodes, and all else stays.
//! A change takes no memory, so that it is right where requests are refused, too.

use cycle_heads::heads::CycleHeads;
use delegate_parts::{ContextOf, Outcome};
use global_cache::GlobalCache;
use path_kinds::path::PathKind;
use search_context::context::{NoMemory, NodeId};
use search_stack::nested_goals::NestedGoals;
use search_stack::result::EvaluationResult;
use std::alloc::Global;
use std::collections::HashSet;
use std::test::Fail;
use test_delegates::loops::{Loops, LoopsDelegate, answered_loop};

/// The goal that is gone, and the one that stays.
const GONE: PathKind = PathKind::Inductive;

const KEPT: PathKind = PathKind::Coinductive;

/// The depth of the results.
const DEPTH: usize = 3;

#[test]
fn results_and_nodes_of_others_stay(rt: HostRuntime) -> Result<(), Fail> {
    let is_right = keeps_others(rt.alloc())?;
    assert!(rt; is_right);
    Ok(())
}

/// Whether all stays where nothing is gone, and then all but what is known of one goal.
fn keeps_others(alloc: Global) -> Result<bool, NoMemory> {
    let mut cache = GlobalCache::<LoopsDelegate>::new(alloc, ContextOf(Loops));
    let of_gone = answered_loop(&mut cache, alloc, GONE, Outcome::Yes)?;
    let of_kept = answered_loop(&mut cache, alloc, KEPT, Outcome::No)?;
    put(&mut cache, GONE)?;
    put(&mut cache, KEPT)?;
    let mut gone = HashSet::new(alloc);
    forget(&mut cache, &gone);
    let all_stays = has_all(&cache, GONE, of_gone) && has_all(&cache, KEPT, of_kept);
    gone.insert(GONE)?;
    forget(&mut cache, &gone);
    let other_stays = has_none(&cache, GONE, of_gone) && has_all(&cache, KEPT, of_kept);
    let is_counted = cache.held_nodes() == 1 && cache.next_node() == 2;
    Ok(all_stays && other_stays && is_counted && lets_go_of_open(&mut cache, &gone)?)
}

/// Whether an open node of a goal that is gone is let go. Its number is one that was not given before.
fn lets_go_of_open(
    cache: &mut GlobalCache<LoopsDelegate>,
    gone: &HashSet<PathKind>,
) -> Result<bool, NoMemory> {
    let node = cache.open_node(GONE)?;
    let was_open = cache.node_is_open(node);
    forget(cache, gone);
    Ok(node == NodeId(2) && was_open && !cache.node_is_open(node) && cache.held_nodes() == 1)
}

/// The same rules, where what is known of these goals is not to stand.
#[tactic(auto, using(crate::proofs::Kept::loops_keep))]
fn forget(cache: &mut GlobalCache<LoopsDelegate>, gone: &HashSet<PathKind>) {
    cache.change(ContextOf(Loops), gone);
}

/// Stores a result that met overflow. A goal that asks itself has no rank, so that any depth may be required.
#[tactic(auto, using(crate::proofs::Ranks::has_no_rank, crate::proofs::Ranks::needs_no_graph))]
fn put(cache: &mut GlobalCache<LoopsDelegate>, goal: PathKind) -> Result<(), NoMemory> {
    let alloc = cache.allocator();
    let evaluation_result = EvaluationResult {
        encountered_overflow: true,
        required_depth: DEPTH,
        heads: CycleHeads::new(alloc),
        nested_goals: NestedGoals::new(alloc),
        result: Outcome::Maybe,
        node: None,
    };
    match cache.insert(goal, evaluation_result, ()) {
        Ok(()) => Ok(()),
        Err(_) => Err(NoMemory),
    }
}

/// Whether the goal has its result and its node.
fn has_all(cache: &GlobalCache<LoopsDelegate>, goal: PathKind, node: NodeId) -> bool {
    let is_of_goal = match cache.node(node) {
        Some(finished) => finished.input == goal,
        None => false,
    };
    is_of_goal && cache.overflow_at(goal, DEPTH) == Some(Outcome::Maybe)
}

/// Whether it has neither.
fn has_none(cache: &GlobalCache<LoopsDelegate>, goal: PathKind, node: NodeId) -> bool {
    cache.node(node).is_none() && cache.overflow_at(goal, DEPTH).is_none()
}
