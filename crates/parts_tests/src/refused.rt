//! Tests of calls that are refused memory: they leave their values as they were, and succeed when they are called again.
//! In a plain run nothing is refused, and each call succeeds at once; `tests/memory` refuses the requests in turn. A call
//! that needs no memory then is one that has to succeed.

ghost use Rattle.std.specs.Prelude.{◌≡◌, ◌≢◌, ◌<◌, ◌≤◌, [], All, IfOk, length, OnOk};
ghost use Rattle.parts_tests.specs.Within.{AreWithin};

use bitflags::Flags;
use cycle_heads::candidates::CandidateHeadUsages;
use cycle_heads::depth::StackDepth;
use cycle_heads::heads::CycleHeads;
use cycle_heads::usages::HeadUsages;
use delegate_parts::{ContextOf, Outcome};
use global_cache::GlobalCache;
use path_kinds::path::{PathKind, PathsToNested};
use provisional_cache::{ProvisionalCache, ProvisionalCacheEntry, RebaseReason};
use search_context::context::{Cx, Delegate, Fault, NoMemory, NodeId};
use search_stack::depth::AvailableDepth;
use search_stack::nested_goals::NestedGoals;
use search_stack::result::EvaluationResult;
use search_stack::stack::{Stack, StackEntry};
use std::alloc::Global;
use std::test::Fail;
use test_delegates::loops::{Loops, LoopsContext, LoopsDelegate};

/// The goals.
const KINDS: [PathKind; 4] = [
    PathKind::Inductive,
    PathKind::Unknown,
    PathKind::Coinductive,
    PathKind::ForcedAmbiguity,
];

/// The goal that has entries and results.
const GOAL: PathKind = PathKind::Unknown;

/// What is called.
#[derive(Clone, Copy)]
enum Call {
    NestedGoal,
    GoalsOfAChild,
    GoalsThatAChildGives,
    Push,
    Head,
    Usages,
    Candidate,
    Rebase,
    StoredResult,
}

const CALLS: [(&str, Call); 9] = [
    ("a refused nested goal changes nothing", Call::NestedGoal),
    (
        "refused goals of a child change nothing",
        Call::GoalsOfAChild,
    ),
    (
        "refused goals that a child gives change nothing",
        Call::GoalsThatAChildGives,
    ),
    ("a refused push changes nothing", Call::Push),
    ("a refused head changes nothing", Call::Head),
    ("refused usages change nothing", Call::Usages),
    ("refused candidates change nothing", Call::Candidate),
    ("a refused rebase leaves no entry", Call::Rebase),
    ("a refused result changes nothing", Call::StoredResult),
];

#[test]
fn refused_calls_change_nothing(rt: HostRuntime) -> Result<(), Fail> {
    for (name, call) in &CALLS {
        let is_kept = is_kept(rt.alloc(), *call)?;
        assert!(rt; is_kept, "{name}");
    }
    Ok(())
}

/// Whether all is kept where the calls are refused, and all is done in the end.
fn is_kept(alloc: Global, call: Call) -> Result<bool, NoMemory> {
    match call {
        Call::NestedGoal => keeps_nested_goals(alloc),
        Call::GoalsOfAChild => keeps_goals_of_a_child(alloc),
        Call::GoalsThatAChildGives => keeps_given_goals(alloc),
        Call::Push => keeps_stack::<LoopsContext>(alloc),
        Call::Head => keeps_heads(alloc),
        Call::Usages => keeps_usages(alloc),
        Call::Candidate => keeps_candidate(alloc),
        Call::Rebase => {
            rebases_or_empties::<LoopsContext, LoopsDelegate>(alloc, ContextOf(Loops))
        }
        Call::StoredResult => keeps_results(alloc),
    }
}

fn keeps_nested_goals(alloc: Global) -> Result<bool, NoMemory> {
    let mut goals = NestedGoals::<PathKind>::new(alloc);
    keeps_each_nested_goal(&mut goals)
}

fn keeps_each_nested_goal(goals: &mut NestedGoals<PathKind>) -> Result<bool, NoMemory> {
    for goal in &KINDS {
        if !keeps_nested_goal(goals, *goal)? {
            return Ok(false);
        }
    }
    Ok(true)
}

/// Inserts a new goal, and then the same once more.
fn keeps_nested_goal(goals: &mut NestedGoals<PathKind>, goal: PathKind) -> Result<bool, NoMemory> {
    let others = goals.len();
    if goals.insert(goal, PathsToNested::EMPTY).is_err() {
        if goals.len() != others || goals.contains(goal) {
            return Ok(false);
        }
        goals.insert(goal, PathsToNested::EMPTY)?;
    }
    // The goal is known, so that its paths are joined without memory.
    let is_joined = goals.insert(goal, PathsToNested::UNKNOWN).is_ok();
    let both = PathsToNested::EMPTY.union(PathsToNested::UNKNOWN);
    Ok(is_joined && goals.get(goal) == Some(both))
}

/// Inserts these goals with the path of no step to each, and says whether there was memory.
fn inserts_all(goals: &mut NestedGoals<PathKind>, inputs: &[PathKind]) -> bool {
    for goal in inputs {
        if goals.insert(*goal, PathsToNested::EMPTY).is_err() {
            return false;
        }
    }
    true
}

/// Whether there are so many goals, and these are the paths to the unknown one.
fn has_unknown(goals: &NestedGoals<PathKind>, count: usize, paths: PathsToNested) -> bool {
    goals.len() == count && goals.get(PathKind::Unknown) == Some(paths)
}

fn keeps_goals_of_a_child(alloc: Global) -> Result<bool, NoMemory> {
    let mut child = NestedGoals::<PathKind>::new(alloc);
    let mut goals = NestedGoals::<PathKind>::new(alloc);
    extends(&mut goals, &mut child)
}

/// Joins the four goals of a child to the unknown one.
fn extends(
    goals: &mut NestedGoals<PathKind>,
    child: &mut NestedGoals<PathKind>,
) -> Result<bool, NoMemory> {
    if !inserts_all(child, &KINDS) || !inserts_all(goals, &[PathKind::Unknown]) {
        return Err(NoMemory);
    }
    let step = PathKind::Coinductive;
    if goals.extend_from_child(step, child).is_err() {
        if !has_unknown(goals, 1, PathsToNested::EMPTY) {
            return Ok(false);
        }
        goals.extend_from_child(step, child)?;
    }
    let both = PathsToNested::EMPTY.union(PathsToNested::COINDUCTIVE);
    Ok(has_unknown(goals, 4, both))
}

fn keeps_given_goals(alloc: Global) -> Result<bool, NoMemory> {
    let mut goals = NestedGoals::<PathKind>::new(alloc);
    takes_at_last(alloc, &mut goals)
}

/// Joins the goals that a child gives to the unknown one.
fn takes_at_last(alloc: Global, goals: &mut NestedGoals<PathKind>) -> Result<bool, NoMemory> {
    if !inserts_all(goals, &[PathKind::Unknown]) {
        return Err(NoMemory);
    }
    if !takes(alloc, goals)? {
        if !has_unknown(goals, 1, PathsToNested::EMPTY) {
            return Ok(false);
        }
        takes(alloc, goals)?;
    }
    let is_given = goals.get(PathKind::Inductive) == Some(PathsToNested::COINDUCTIVE);
    Ok(is_given && has_unknown(goals, 3, PathsToNested::EMPTY))
}

/// Takes the two goals of a child, and says whether there was memory.
fn takes(alloc: Global, goals: &mut NestedGoals<PathKind>) -> Result<bool, NoMemory> {
    let mut child = NestedGoals::<PathKind>::new(alloc);
    if !inserts_all(&mut child, &[PathKind::Inductive, PathKind::Coinductive]) {
        return Err(NoMemory);
    }
    Ok(
        goals
            .take_from_child(PathKind::Coinductive, &mut child)
            .is_ok(),
    )
}

fn keeps_stack<X: Cx<Input = PathKind>>(alloc: Global) -> Result<bool, NoMemory> {
    let mut stack = Stack::<X>::new(alloc);
    for goal in &KINDS {
        if !keeps_pushed(alloc, &mut stack, *goal) {
            return Ok(false);
        }
    }
    Ok(stack.len() == 4)
}

/// Pushes a new goal.
fn keeps_pushed<X: Cx<Input = PathKind>>(
    alloc: Global,
    stack: &mut Stack<X>,
    goal: PathKind,
) -> bool {
    let below = stack.len();
    if !push(alloc, stack, goal) {
        if stack.len() != below || stack.find(goal).is_some() {
            return false;
        }
        push(alloc, stack, goal);
    }
    stack.find(goal) == Some(StackDepth::new(below))
}

/// Pushes the goal, and says whether there was memory.
fn push<X: Cx<Input = PathKind>>(alloc: Global, stack: &mut Stack<X>, goal: PathKind) -> bool {
    if stack.find(goal).is_some() {
        return false;
    }
    let entry = StackEntry::new(alloc, goal, goal, AvailableDepth(4));
    stack.push(entry).is_ok()
}

/// How many heads there are: one more than a list has room for that doubles, so that a merge of all but the first with that
/// one takes memory, too.
const HEADS: usize = 33;

fn keeps_heads(alloc: Global) -> Result<bool, NoMemory> {
    let mut heads = CycleHeads::new(alloc);
    let usages = HeadUsages::default();
    for number in 0..HEADS {
        let head = StackDepth::new(number);
        let paths = PathsToNested::COINDUCTIVE;
        if heads.insert(head, paths, usages).is_err() {
            if heads.as_slice().len() != number {
                return Ok(false);
            }
            heads.insert(head, paths, usages)?;
        }
        let is_joined = heads.insert(head, PathsToNested::INDUCTIVE, usages).is_ok();
        if !is_joined || heads.opt_highest_cycle_head_index() != Some(head) {
            return Ok(false);
        }
    }
    Ok(heads.as_slice().len() == HEADS)
}

fn keeps_usages(alloc: Global) -> Result<bool, NoMemory> {
    let once = used(1);
    let mut noted = CandidateHeadUsages::new(alloc);
    for number in 0..HEADS {
        let head = StackDepth::new(number);
        if noted.note_usages(head, once).is_err() {
            if noted.as_slice().len() != number || noted.get(head).is_some() {
                return Ok(false);
            }
            noted.note_usages(head, once)?;
        }
        let is_counted = noted.note_usages(head, once).is_ok();
        if !is_counted || noted.get(head) != Some(used(2)) {
            return Ok(false);
        }
    }
    Ok(noted.as_slice().len() == HEADS)
}

/// So many usages by coinductive cycles.
fn used(coinductive: u32) -> HeadUsages {
    HeadUsages {
        inductive: 0,
        unknown: 0,
        coinductive,
        forced_ambiguity: 0,
    }
}

/// A candidate that used the heads of these numbers once.
fn candidate(alloc: Global, from: usize, to: usize) -> Result<CandidateHeadUsages, NoMemory> {
    let mut candidate = CandidateHeadUsages::new(alloc);
    for number in from..to {
        candidate.note_usages(StackDepth::new(number), used(1))?;
    }
    Ok(candidate)
}

fn keeps_candidate(alloc: Global) -> Result<bool, NoMemory> {
    let half = HEADS / 2;
    let mut merged = candidate(alloc, 0, half)?;
    let first = candidate(alloc, 1, HEADS)?;
    let again = candidate(alloc, 1, HEADS)?;
    if merged.merge_usages(first).is_err() {
        if !has_twice(&merged, half, 0, 0) {
            return Ok(false);
        }
        merged.merge_usages(again)?;
    }
    Ok(has_twice(&merged, HEADS, 1, half))
}

/// Whether the candidate used so many heads: those of these numbers twice, and all others once.
fn has_twice(candidate: &CandidateHeadUsages, count: usize, from: usize, to: usize) -> bool {
    for (head, usages) in candidate.as_slice() {
        let is_within = head.index() >= from && head.index() < to;
        let wanted = if is_within { 2 } else { 1 };
        if usages.coinductive != wanted {
            return false;
        }
    }
    candidate.as_slice().len() == count
}

/// Whether for each reason a rebase that is refused leaves an empty cache, and any other one an entry.
fn rebases_or_empties<X, D>(alloc: Global, cx: X) -> Result<bool, NoMemory>
where
    X: Cx<Input = PathKind, Result = Outcome, AmbiguityInfo = ()>,
    D: Delegate<Cx = X>,
{
    for reason in 0..6usize {
        if !rebases_or_empties_by::<X, D>(alloc, cx, reason)? {
            return Ok(false);
        }
    }
    Ok(true)
}

/// The second goal on the stack is done. It rests on the first one by a coinductive cycle. One entry does too, and another one
/// used the second goal.
fn rebases_or_empties_by<X, D>(alloc: Global, cx: X, reason: usize) -> Result<bool, NoMemory>
where
    X: Cx<Input = PathKind, Result = Outcome, AmbiguityInfo = ()>,
    D: Delegate<Cx = X>,
{
    let mut stack = Stack::<X>::new(alloc);
    push(alloc, &mut stack, PathKind::ForcedAmbiguity);
    if stack.len() != 1 {
        return Err(NoMemory);
    }
    let done = done_goal::<X>(alloc)?;
    rebases_or_empties_over::<X, D>(alloc, cx, &done, &stack, reason)
}

/// The same with this goal, over this stack.
fn rebases_or_empties_over<X, D>(
    alloc: Global,
    cx: X,
    done: &StackEntry<X>,
    stack: &Stack<X>,
    reason: usize,
) -> Result<bool, NoMemory>
where
    X: Cx<Input = PathKind, Result = Outcome, AmbiguityInfo = ()>,
    D: Delegate<Cx = X>,
    requires heads { All (λ head. head.0.0 < 1) done.now.state.heads }
    requires one { length stack.now ≡ 1 }
{
    let mut cache = ProvisionalCache::<D>::new(alloc);
    append_two(&mut cache, alloc, GOAL)?;
    let is_done = cache.rebase(cx, done, stack, reason_of(reason)).is_ok();
    Ok(cache.is_empty() != is_done)
}

fn reason_of<X: Cx<AmbiguityInfo = ()>>(number: usize) -> RebaseReason<X> {
    match number {
        0 => RebaseReason::NoCycleUsages,
        1 => RebaseReason::Ambiguity(()),
        2 => RebaseReason::Overflow,
        3 => RebaseReason::ReachedFixpoint(None),
        4 => RebaseReason::ReachedFixpoint(Some(PathKind::Coinductive)),
        _ => RebaseReason::ReachedFixpoint(Some(PathKind::Inductive)),
    }
}

/// The goal that is done.
fn done_goal<X: Cx<Input = PathKind>>(alloc: Global) -> Result<StackEntry<X>, NoMemory>
    ensures { IfOk result (λ done. All (λ head. head.0.0 < 1) done.state.heads) }
{
    let heads = head_at(alloc, 0)?;
    let kind = PathKind::Inductive;
    let mut done = StackEntry::new(alloc, kind, kind, AvailableDepth(3));
    done.state.heads = heads;
    Ok(done)
}

/// One head, the first goal of the stack or the second one, which was used once by a coinductive cycle.
fn head_at(alloc: Global, depth: usize) -> Result<CycleHeads, NoMemory>
    requires { depth ≤ 1 }
    ensures some { IfOk result (λ heads. heads ≢ []) }
    ensures within { IfOk result (All (λ head. head.0.0 ≤ 1)) }
    ensures first { depth ≡ 0 → IfOk result (All (λ head. head.0.0 < 1)) }
{
    let mut heads = CycleHeads::new(alloc);
    heads.insert(StackDepth::new(depth), PathsToNested::COINDUCTIVE, used(1))?;
    Ok(heads)
}

/// Appends the two entries of a goal.
fn append_two<X: Cx<Result = Outcome>, D: Delegate<Cx = X>>(
    cache: &mut ProvisionalCache<D>,
    alloc: Global,
    goal: X::Input,
) -> Result<(), NoMemory>
    requires { AreWithin X.Input.eq cache.old }
    ensures { OnOk result (AreWithin X.Input.eq cache.new) }
{
    append(cache, alloc, goal, 0, Outcome::No)?;
    append(cache, alloc, goal, 1, Outcome::Yes)
}

/// Appends an entry of the goal that used the goal of this depth, over an inductive path.
#[tactic(auto, using(crate::proofs::Within::pushed_within))]
fn append<X: Cx<Result = Outcome>, D: Delegate<Cx = X>>(
    cache: &mut ProvisionalCache<D>,
    alloc: Global,
    goal: X::Input,
    depth: usize,
    outcome: Outcome,
) -> Result<(), NoMemory>
    requires depth { depth ≤ 1 }
    requires all { AreWithin X.Input.eq cache.old }
    ensures { OnOk result (AreWithin X.Input.eq cache.new) }
{
    let entry = ProvisionalCacheEntry {
        encountered_overflow: false,
        heads: head_at(alloc, depth)?,
        path_from_head: PathKind::Inductive,
        result: outcome,
        node: Some(NodeId(5)),
    };
    cache.push(goal, entry)
}

/// Stores forty results of a goal that met overflow at different depths, each of them twice.
fn keeps_results(alloc: Global) -> Result<bool, NoMemory> {
    let mut cache = GlobalCache::<LoopsDelegate>::new(alloc, ContextOf(Loops));
    for depth in 0..40usize {
        if !keeps_result(&mut cache, depth) {
            return Ok(false);
        }
    }
    Ok(true)
}

/// Stores a result where those of lower depths are stored.
fn keeps_result(cache: &mut GlobalCache<LoopsDelegate>, depth: usize) -> bool {
    if put(cache, depth) == Err(Fault::Memory) {
        if !has_below(cache, depth) {
            return false;
        }
        let _ = put(cache, depth);
    }
    // What is stored there is replaced by an equal one without memory.
    put(cache, depth).is_ok() && has_below(cache, depth.saturating_add(1))
}

/// Stores a result that met overflow. A goal that asks itself has no rank, so that any depth may be required.
#[tactic(auto, using(crate::proofs::Ranks::has_no_rank, crate::proofs::Ranks::needs_no_graph))]
fn put(
    cache: &mut GlobalCache<LoopsDelegate>,
    required_depth: usize,
) -> Result<(), Fault<PathKind, Outcome>> {
    let alloc = cache.allocator();
    let evaluation_result = EvaluationResult {
        encountered_overflow: true,
        required_depth,
        heads: CycleHeads::new(alloc),
        nested_goals: NestedGoals::new(alloc),
        result: Outcome::Maybe,
        node: None,
    };
    cache.insert(GOAL, evaluation_result, ())
}

/// Whether the goal has a result at each depth below this one, and none at this one.
fn has_below<X, D>(cache: &GlobalCache<D>, end: usize) -> bool
where
    X: Cx<Input = PathKind, Result = Outcome>,
    D: Delegate<Cx = X>,
{
    for depth in 0..end {
        if cache.overflow_at(GOAL, depth) != Some(Outcome::Maybe) {
            return false;
        }
    }
    cache.overflow_at(GOAL, end).is_none()
}
