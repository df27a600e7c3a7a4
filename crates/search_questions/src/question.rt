//! What a question comes to: it is refused, or answered by a provisional entry, a stored result or a goal that is
//! under evaluation already, or its goal is pushed.
ghost use Rattle.std.specs.Prelude.{◌≡◌, ◌<◌, ◌||◌, ◌∷◌, ◌+◌, ◌^◌, ◌≤◌, ℕ, false, is_some, length, map, reverse, unwrap_or, IfOk, IfSome, List, OnOk, OnErr, Option, Some, None};
ghost use Rattle.std.specs.List.{list_any, position};
ghost use Rattle.std.specs.Option.{is_none, option_copied, option_map, option_and_then};
ghost use Rattle.search_questions.specs.Below.{depth_below, KeepsBuilder, KeepsNodes, ProvisionalCacheEntry, Evaluate, newest, ClosesCycle, Pushes, fates_of, HaveExpected, Begin, hit_of, AreOnStack, usable_entry, is_applicable, first_accepted, usable, IsFated, HasRequest, StartsFrame};
ghost use Rattle.search_rules.specs.Words.{Consults, is_compared, IsUsable};
ghost use Rattle.search_context.specs.Delegate.{SeesOn};
ghost use Rattle.goal_changes.specs.Frames.{frames_of};
ghost use Rattle.search_state.specs.Scopes.{held_over};
ghost use Rattle.search_questions.specs.Words.{AskingFails, AskingLeadsTo, Asks, IsAnsweredAtLimit, IsAnsweredByEntry, IsAnsweredByHit, question_depth, SeesStart};

use global_cache::GlobalCache;
use open_goals::goals::OpenGoals;
use path_kinds::path::PathKind;
use provisional_cache::{ProvisionalCache, ProvisionalCacheEntry};
use run_records::candidates::FinishedCandidates;
use run_records::progress::Progress;
use run_records::runs::{Fate, Received, Run};
use search_context::context::{Cx, Delegate, NoMemory, NodeId, Reply};
use search_rules::look_up::{Consulted, consult, look_up_entry};
use search_stack::depth::{AvailableDepth, StackDepth};
use search_stack::result::CacheData;
use search_stack::stack::StackEntry;
use search_state::evaluation::Evaluation;
use search_state::scopes::HeldScopes;

/// Answers the newest goal's question, or pushes the asked goal, whose frame then begins. A question
/// of a goal without depth is refused, which meets a limit.
pub fn ask<D: Delegate>(
    evaluation: &mut Evaluation<D>,
    cache: &mut GlobalCache<D>,
    kind: PathKind,
    input: <D::Cx as Cx>::Input,
    inspect: &mut D::ProofTreeBuilder,
) -> Result<Received<<D::Cx as Cx>::Result>, NoMemory>
    requires made { HasRequest D.Delegate D.Cx.Cx D.Cx.Input.eq cache.old.cx
        (Evaluate kind input) cache.old evaluation.old (D.starts inspect.old) }
    requires expected { HaveExpected (D.scoped cache.old.cx) (D.script cache.old.cx)
        D.Cx.Input.eq cache.old.results (fates_of evaluation.old.goals) }
    ensures asked { IfOk result (λ received.
        AskingLeadsTo D.Delegate D.Cx.Cx D.Cx.Input.eq cache.old.cx kind input (D.noop inspect.old)
        cache.old evaluation.old (D.starts inspect.old) received
        cache.new evaluation.new (D.starts inspect.new)) }
    ensures fails { OnErr result (AskingFails D.Delegate cache.old evaluation.old
        (D.starts inspect.old) cache.new evaluation.new (D.starts inspect.new)) }
    ensures asks { Asks D.Delegate D.Cx.Input.eq cache.old evaluation.old
        cache.new evaluation.new }
    ensures builder { KeepsBuilder D.starts D.noop inspect.old inspect.new }
    ensures seen { IfOk result (λ received. SeesOn D.sees inspect.old inspect.new
        (frames_of evaluation.old.goals) (frames_of evaluation.new.goals)) }
{
    // A question is refused before anything is looked up: whether a search is too deep must not depend on
    // what the cache happens to hold.
    let Some(depth) = allowed_depth(evaluation) else {
        // The limit is noted first, so that it is noted too where memory is out.
        evaluation.limits_met = true;
        return refuse::<D>(&mut evaluation.goals, cache.cx(), input);
    };
    ask_at(evaluation, cache, kind, input, depth, inspect)
}

/// Answers the newest goal's question, which gets this depth, or pushes the asked goal.
fn ask_at<D: Delegate>(
    evaluation: &mut Evaluation<D>,
    cache: &mut GlobalCache<D>,
    kind: PathKind,
    input: <D::Cx as Cx>::Input,
    depth: AvailableDepth,
    inspect: &mut D::ProofTreeBuilder,
) -> Result<Received<<D::Cx as Cx>::Result>, NoMemory>
    requires some { 0 < length evaluation.old.goals }
    requires gets { Some depth.0 ≡ question_depth D.Delegate evaluation.old }
    requires fits { depth.0 + 1 < 2 ^ 64 }
    requires on_stack { AreOnStack D.Cx.Input.eq (reverse (map (λ s. s.0) evaluation.old.goals))
        evaluation.old.provisional }
    ensures asked { IfOk result (λ received.
        AskingLeadsTo D.Delegate D.Cx.Cx D.Cx.Input.eq cache.old.cx kind input (D.noop inspect.old)
        cache.old evaluation.old (D.starts inspect.old) received
        cache.new evaluation.new (D.starts inspect.new)) }
    ensures rest { evaluation.new ≡ record evaluation.old {
      goals = evaluation.new.goals;
      scopes = evaluation.new.scopes;
    } }
    ensures cache { cache.new ≡ record cache.old { nodes = cache.new.nodes } }
    ensures kept { KeepsNodes cache.old.nodes cache.new.nodes }
    ensures builder { KeepsBuilder D.starts D.noop inspect.old inspect.new }
    ensures at_most { D.starts inspect.new ≤ D.starts inspect.old + 1 }
    ensures seen { IfOk result (λ received. SeesOn D.sees inspect.old inspect.new
        (frames_of evaluation.old.goals) (frames_of evaluation.new.goals)) }
{
    let cx = cache.cx();
    // Entries come before stored results, so that the test of a stored result's nested goals need not think
    // of a goal that has both.
    if let Some(entry) = entry_for::<D>(&evaluation.provisional, &evaluation.goals, kind, input) {
        return answer_by_entry(&mut evaluation.goals, kind, entry);
    }
    let Consulted {
        stored,
        fate,
        scope,
    } = consult_for::<D>(
        cache,
        &evaluation.provisional,
        &evaluation.goals,
        kind,
        input,
        depth,
        inspect,
    );
    if let Some(stored) = stored {
        return answer_by_stored(&mut evaluation.goals, kind, &stored);
    }
    if let Some(head) = evaluation.goals.find(input) {
        return answer_cycle(evaluation, cx, kind, input, head);
    }
    push_goal(evaluation, cache, kind, input, depth, fate, inspect)?;
    begin_in_scope(&mut evaluation.scopes, scope)
}

/// Answers the newest goal's question of a goal that is under evaluation at `head`, by its provisional
/// result or, in its first run, by the initial one. Ports `SearchGraph::check_cycle_on_stack`.
fn answer_cycle<D: Delegate>(
    evaluation: &mut Evaluation<D>,
    cx: D::Cx,
    step: PathKind,
    input: <D::Cx as Cx>::Input,
    head: StackDepth,
) -> Result<Received<<D::Cx as Cx>::Result>, NoMemory>
    requires some { 0 < length evaluation.old.goals }
    requires found { position (D.Cx.Input.eq input)
        (map (λ e. e.input) (reverse (map (λ s. s.0) evaluation.old.goals))) ≡ Some head.0 }
    ensures answered { IfOk result (λ received.
        ClosesCycle D.Delegate D.Cx.Cx cx D.Cx.Input.eq step input head received evaluation.old.goals
        evaluation.new.goals) }
    ensures rest { evaluation.new ≡ record evaluation.old { goals = evaluation.new.goals } }
{
    let kind = evaluation.goals.stack().path_kind(step, head);
    let state = &evaluation.goals.stack()[head].state;
    let node = state.node;
    let outcome = cycle_result::<D>(cx, state.provisional_result, kind, input);
    // The head is noted before the frame gets its answer: its next request may end the candidate or the
    // run, and both have to count it.
    evaluation.goals.note_cycle(step, input, head, kind)?;
    Ok(Received {
        reply: Reply::Answer(outcome),
        node,
    })
}

/// The depth that the newest goal's question gets.
fn allowed_depth<D: Delegate>(evaluation: &Evaluation<D>) -> Option<AvailableDepth>
    requires { 0 < length evaluation.now.goals }
    ensures { option_map (λ d. d.0) result
        ≡ option_and_then (λ s. depth_below D.DIVIDE_AVAILABLE_DEPTH_ON_OVERFLOW s.0)
        (newest evaluation.now.goals) }
{
    AvailableDepth::allowed_depth_for_nested::<D>(evaluation.root_depth, evaluation.goals.stack())
}

/// Pushes a goal, with a node of its own and a frame that begins. Its result meets this fate.
pub fn push_goal<D: Delegate>(
    evaluation: &mut Evaluation<D>,
    cache: &mut GlobalCache<D>,
    step_kind: PathKind,
    input: <D::Cx as Cx>::Input,
    depth: AvailableDepth,
    fate: Fate<<D::Cx as Cx>::Result>,
    inspect: &mut D::ProofTreeBuilder,
) -> Result<(), NoMemory>
    requires { list_any (λ s. D.Cx.Input.eq input s.0.input) evaluation.old.goals ≡ false }
    ensures pushed { OnOk result (
        Pushes D.Delegate D.Cx.Cx cache.old.cx input step_kind depth
        cache.old.nodes cache.new.nodes evaluation.old.goals evaluation.new.goals) }
    ensures fates { OnOk result (fates_of evaluation.new.goals
        ≡ record { goal = input; depth = depth.0; fate = fate } ∷ fates_of evaluation.old.goals) }
    ensures rest { evaluation.new ≡ record evaluation.old { goals = evaluation.new.goals } }
    ensures cache { cache.new ≡ record cache.old { nodes = cache.new.nodes } }
    ensures kept { KeepsNodes cache.old.nodes cache.new.nodes }
    ensures refused { OnErr result (cache.new ≡ cache.old) }
    ensures starts { StartsFrame D.Delegate (OnOk result) inspect.old inspect.new }
    ensures seen { OnOk result (SeesStart D.sees input inspect.old inspect.new
        (frames_of evaluation.old.goals) (frames_of evaluation.new.goals)) }
{
    let frame = D::start(cache.cx(), input, inspect)?;
    let alloc = evaluation.goals.allocator();
    let node = NodeId(cache.next_node());
    let mut entry = StackEntry::new(alloc, input, step_kind, depth);
    entry.state.node = Some(node);
    evaluation.goals.push(
        entry,
        Run {
            frame,
            node,
            progress: Progress::new(alloc),
            finished_runs: 0,
            met_overflow_before: false,
            candidates: FinishedCandidates::new(alloc),
            fate,
        },
    )?;
    // The node is opened last: where memory is out, none is left without a goal.
    cache.open_node(input)?;
    Ok(())
}

/// What a cycle of this kind on a goal is answered with: the result of the goal's last run, or in its first
/// run the initial one.
fn cycle_result<D: Delegate>(
    cx: D::Cx,
    provisional_result: Option<<D::Cx as Cx>::Result>,
    kind: PathKind,
    input: <D::Cx as Cx>::Input,
) -> <D::Cx as Cx>::Result
    ensures { result ≡ unwrap_or provisional_result (D.initial_result cx kind input) }
{
    match provisional_result {
        Some(earlier) => earlier,
        None => D::initial_provisional_result(cx, kind, input),
    }
}

/// Refuses the question of this goal, which the newest one asks.
fn refuse<D: Delegate>(
    goals: &mut OpenGoals<D::Cx, D::Frame>,
    cx: D::Cx,
    input: <D::Cx as Cx>::Input,
) -> Result<Received<<D::Cx as Cx>::Result>, NoMemory>
    requires some { 0 < length goals.old }
    ensures refuses { IfOk result (λ received.
        IsAnsweredAtLimit D.Cx.Input.eq (D.stack_overflow cx input) received goals.old goals.new) }
{
    goals.note_overflow()?;
    let answer = D::stack_overflow_result(cx, input);
    Ok(Received::without_node(Reply::Answer(answer)))
}

/// The provisional entry that answers the question of this goal, which the newest one asks over the step.
fn entry_for<'a, D: Delegate>(
    provisional: &'a ProvisionalCache<D>,
    goals: &OpenGoals<D::Cx, D::Frame>,
    step: PathKind,
    input: <D::Cx as Cx>::Input,
) -> Option<&'a ProvisionalCacheEntry<D::Cx>>
    requires on_stack { AreOnStack D.Cx.Input.eq
        (reverse (map (λ s. s.0) goals.now)) provisional.now }
    ensures found { option_copied result ≡ usable_entry D.Cx.Input.eq D.ENABLE_PROVISIONAL_CACHE
        (record { stack = reverse (map (λ s. s.0) goals.now); entries = provisional.now; step = step })
        input }
{
    look_up_entry::<D>(provisional, goals.stack(), step, input)
}

/// What the global cache has to say to the question of this goal, which the newest one asks over the step.
fn consult_for<'a, D: Delegate>(
    cache: &'a GlobalCache<D>,
    provisional: &ProvisionalCache<D>,
    goals: &OpenGoals<D::Cx, D::Frame>,
    step: PathKind,
    input: <D::Cx as Cx>::Input,
    depth: AvailableDepth,
    inspect: &mut D::ProofTreeBuilder,
) -> Consulted<'a, D>
    requires on_stack { AreOnStack D.Cx.Input.eq
        (reverse (map (λ s. s.0) goals.now)) provisional.now }
    ensures consults { Consults (D.noop inspect.old) (D.scoped cache.now.cx input) (first_accepted
        (is_applicable D.Cx.Input.eq
        (record { stack = reverse (map (λ s. s.0) goals.now); entries = provisional.now; step = step }))
        (usable D.Cx.Input.eq cache.now.results input depth.0))
        (option_map hit_of result.stored) result.fate }
    ensures fated { IsFated (D.scoped cache.now.cx) (D.script cache.now.cx) D.Cx.Input.eq
        cache.now.results (D.noop inspect.old)
        (record { goal = input; depth = depth.0; fate = result.fate }) }
    ensures usable { IfSome result.stored (λ stored.
        IsUsable D.Cx.Input.eq (D.script cache.now.cx) cache.now.results input depth.0
        (hit_of stored)) }
    ensures scope { is_some result.scope ≡ is_compared result.fate }
    ensures builder { KeepsBuilder D.starts D.noop inspect.old inspect.new }
    ensures same_starts { D.starts inspect.new ≡ D.starts inspect.old }
    ensures seen { (goal : D.Cx.Input) (frames : Option (List D.Frame)) → D.sees inspect.old goal frames →
        D.sees inspect.new goal frames }
{
    consult::<D>(
        cache,
        provisional,
        goals.stack(),
        step,
        input,
        depth,
        inspect,
    )
}

/// Answers the newest goal's question, asked over the step, by a provisional entry.
fn answer_by_entry<X: Cx, F: Drop>(
    goals: &mut OpenGoals<X, F>,
    step: PathKind,
    entry: &ProvisionalCacheEntry<X>,
) -> Result<Received<X::Result>, NoMemory>
    requires some { 0 < length goals.old }
    ensures answered { IfOk result (λ received.
        IsAnsweredByEntry X.Input.eq step entry.now received goals.old goals.new) }
{
    goals.note_provisional(step, &entry.heads, entry.encountered_overflow)?;
    Ok(Received {
        reply: Reply::Answer(entry.result),
        node: entry.node,
    })
}

/// Answers the newest goal's question, asked over the step, by a stored result.
fn answer_by_stored<X: Cx, F: Drop>(
    goals: &mut OpenGoals<X, F>,
    step: PathKind,
    stored: &CacheData<'_, X>,
) -> Result<Received<X::Result>, NoMemory>
    requires some { 0 < length goals.old }
    requires fits { stored.now.required_depth + 1 < 2 ^ 64 }
    ensures answered { IfOk result (λ received.
        IsAnsweredByHit X.Input.eq step (hit_of stored.now) received goals.old goals.new) }
{
    goals.note_stored(step, stored)?;
    Ok(Received {
        reply: Reply::Answer(stored.result),
        node: stored.node,
    })
}

/// The newest goal begins. The scope is held until it is done.
fn begin_in_scope<R: Copy, S: Drop>(
    scopes: &mut HeldScopes<S>,
    scope: Option<S>,
) -> Result<Received<R>, NoMemory>
    ensures begins { IfOk result (λ received.
        (received ≡ record { reply = Begin; node = None })
        × (scopes.new ≡ held_over scope scopes.old)) }
{
    scopes.hold(scope)?;
    Ok(Received::without_node(Reply::Begin))
}
