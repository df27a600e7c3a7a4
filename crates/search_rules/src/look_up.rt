//! Which provisional entries and stored results may be used where goals are under evaluation.
ghost use Rattle.std.specs.Prelude.{◌≡◌, ◌≢◌, ◌<◌, [], length, All, IfSome, List, Option, is_some};
ghost use Rattle.std.specs.List.{list_any};
ghost use Rattle.std.specs.Option.{option_copied, option_map};
ghost use Rattle.search_rules.specs.Below.{highest, paths_at, HasGraph, first_accepted, hit_of, usable, entries_at, verdicts};
ghost use Rattle.search_context.specs.Delegate.{KeepsBuilder};
ghost use Rattle.search_rules.specs.Words.{usable_entry, could_be_used, Consults, is_applicable, is_compared, meets_entry, AreOnStack, IsFated, IsUsable};

use bitflags::Flags;
use global_cache::{GlobalCache, NestedTest};
use path_kinds::path::{PathKind, PathsToNested};
use provisional_cache::{ProvisionalCache, ProvisionalCacheEntry};
use run_records::runs::Fate;
use search_context::context::{Cx, Delegate};
use search_stack::depth::AvailableDepth;
use search_stack::nested_goals::NestedGoals;
use search_stack::result::CacheData;
use search_stack::stack::Stack;
use std::marker::Model;

/// How many goals a short stack has at most. About so many comparisons take as long as one look-up.
const SHORT_STACK: usize = 16;

/// The test of the goals below a stored result that a stack of goals makes, with the provisional entries, where
/// the last goal asks over a step. Ports `SearchGraph::candidate_is_applicable`.
#[derive(Drop)]
struct OverStack<'a, D: Delegate> {
    stack: &'a Stack<D::Cx>,
    provisional: &'a ProvisionalCache<D>,
    step: PathKind,
}

impl<'a, D: Delegate> Model for OverStack<'a, D> {
    ghost use Rattle.search_rules.specs.LookUp.{AreOnStack, Asking};

    ghost Value = { Asking D.Cx D.Cx.Input D.Cx.Result D.Cx.AmbiguityInfo D.Cx.DepNodeIndex };

    ghost view = { λ test. record { stack = test.stack.now; entries = test.provisional.now; step = test.step } };

    ghost invariant = { λ test. AreOnStack D.Cx.Input.eq test.stack.now test.provisional.now };
}

impl<'a, D: Delegate> NestedTest<D::Cx> for OverStack<'a, D> {
    ghost accepts = { is_applicable D.Cx.Input.eq };

    /// Whether none of the goals is on the stack, and none could be answered by a provisional entry: else the result
    /// might be another one if it were worked out there.
    fn accepts(&self, nested_goals: &NestedGoals<<D::Cx as Cx>::Input>) -> bool {
        if nested_goals.is_empty() {
            return true;
        }
        !has_goal_of(self.stack, nested_goals)
            && nested_goals
                .iter()
                .all(|(goal, paths)| !self.meets_entry(goal, paths))
    }
}

impl<'a, D: Delegate> OverStack<'a, D> {
    /// Whether the goal, asked at the end of one of these paths, could be answered by an entry.
    fn meets_entry(&self, goal: <D::Cx as Cx>::Input, paths: PathsToNested) -> bool
        ensures { result ≡ meets_entry D.Cx.Input.eq self.now goal paths }
    {
        let entries = self.provisional.entries_of(goal);
        for entry in entries {
            if self.could_be_used(entry, paths) {
                return true;
            }
        }
        false
    }

    /// Whether the entry could be used at the end of one of these paths. One that met overflow is not used there.
    fn could_be_used(&self, entry: &ProvisionalCacheEntry<D::Cx>, paths: PathsToNested) -> bool
        requires some { entry.now.heads ≢ [] }
        requires on_stack { IfSome (highest entry.now.heads) (λ head.
            head.0.0 < length self.now.stack) }
        ensures { result ≡ could_be_used self.now paths entry.now }
    {
        // An entry that met overflow is used only for a goal of the same cycle, which a goal below a stored
        // result is not.
        if entry.encountered_overflow {
            return false;
        }
        let head = entry.heads.highest_cycle_head_index();
        let from_head = self.stack.path_kind(self.step, head);
        paths
            .extend_with(from_head)
            .contains(PathsToNested::from(entry.path_from_head))
    }
}

/// Whether one of the goals is on the stack. The shorter of the two is walked. But the goals of a stored result stand
/// in a list, in which one is looked for as long as they are many: so only the goals of a short stack are looked for
/// there, and on a longer one each nested goal is looked up.
fn has_goal_of<X: Cx>(stack: &Stack<X>, nested_goals: &NestedGoals<X::Input>) -> bool
    ensures { result ≡ list_any (λ e. is_some (paths_at X.Input.eq nested_goals.now e.input))
        stack.now }
{
    let most = nested_goals.len().min(SHORT_STACK);
    if stack.len() > most {
        return nested_goals
            .iter()
            .any(|(goal, _)| stack.find(goal).is_some());
    }
    stack
        .iter()
        .any(|entry| nested_goals.contains(entry.input()))
}

/// The entry that answers the goal, asked over the step by the last goal on the stack, if the delegate lets
/// such entries be used. Ports `SearchGraph::lookup_provisional_cache`.
pub fn look_up_entry<'a, D: Delegate>(
    provisional: &'a ProvisionalCache<D>,
    stack: &Stack<D::Cx>,
    step: PathKind,
    input: <D::Cx as Cx>::Input,
) -> Option<&'a ProvisionalCacheEntry<D::Cx>>
    requires on_stack { AreOnStack D.Cx.Input.eq stack.now provisional.now }
    ensures { option_copied result ≡ usable_entry D.Cx.Input.eq D.ENABLE_PROVISIONAL_CACHE
        (record { stack = stack.now; entries = provisional.now; step = step }) input }
{
    if D::ENABLE_PROVISIONAL_CACHE {
        return provisional.lookup(input, stack, step);
    }
    None
}

/// A stored result of the goal, asked over the step, that may be used over this stack at this depth. Ports
/// `SearchGraph::lookup_global_cache`.
pub fn look_up<'a, D: Delegate>(
    cache: &'a GlobalCache<D>,
    provisional: &ProvisionalCache<D>,
    stack: &Stack<D::Cx>,
    step: PathKind,
    input: <D::Cx as Cx>::Input,
    depth: AvailableDepth,
) -> Option<CacheData<'a, D::Cx>>
    requires on_stack { AreOnStack D.Cx.Input.eq stack.now provisional.now }
    ensures exact { option_map hit_of result ≡ first_accepted
        (is_applicable D.Cx.Input.eq
        (record { stack = stack.now; entries = provisional.now; step = step }))
        (usable D.Cx.Input.eq cache.now.results input depth.0) }
    ensures graph { IfSome result (λ stored.
        HasGraph (verdicts D.Cx.Cx) cache.now.nodes input stored.result stored.node) }
    ensures usable { IfSome result (λ stored.
        IsUsable D.Cx.Input.eq (D.script cache.now.cx) cache.now.results input depth.0
        (hit_of stored)) }
{
    let test = OverStack {
        stack,
        provisional,
        step,
    };
    cache.get(input, depth, &test)
}

/// What the global cache has to say to a question.
#[derive(Drop)]
pub struct Consulted<'a, D: Delegate> {
    /// A stored result that answers it.
    pub stored: Option<CacheData<'a, D::Cx>>,
    /// Else what becomes of the goal's result.
    pub fate: Fate<<D::Cx as Cx>::Result>,
    /// What is held until the goal is done, where its result is compared with the stored one.
    pub scope: Option<D::ValidationScope>,
}

/// Looks for a stored result of the goal, as `look_up` does. Where the builder records, it has to see each goal being
/// worked out, so nothing is looked for, and the goal's own result isn't stored. Where the delegate gives a scope, a
/// result that is found does not answer the question but is compared with the goal's own. Ports a part of
/// `SearchGraph::evaluate_goal`.
pub fn consult<'a, D: Delegate>(
    cache: &'a GlobalCache<D>,
    provisional: &ProvisionalCache<D>,
    stack: &Stack<D::Cx>,
    step: PathKind,
    input: <D::Cx as Cx>::Input,
    depth: AvailableDepth,
    inspect: &mut D::ProofTreeBuilder,
) -> Consulted<'a, D>
    requires on_stack { AreOnStack D.Cx.Input.eq stack.now provisional.now }
    ensures consults { Consults (D.noop inspect.old) (D.scoped cache.now.cx input) (first_accepted
        (is_applicable D.Cx.Input.eq
        (record { stack = stack.now; entries = provisional.now; step = step }))
        (usable D.Cx.Input.eq cache.now.results input depth.0))
        (option_map hit_of result.stored) result.fate }
    ensures fated { IsFated (D.scoped cache.now.cx) (D.script cache.now.cx) D.Cx.Input.eq
        cache.now.results (D.noop inspect.old)
        (record { goal = input; depth = depth.0; fate = result.fate }) }
    ensures usable { IfSome result.stored (λ stored.
        IsUsable D.Cx.Input.eq (D.script cache.now.cx) cache.now.results input depth.0
        (hit_of stored)) }
    ensures graph { IfSome result.stored (λ stored.
        HasGraph (verdicts D.Cx.Cx) cache.now.nodes input stored.result stored.node) }
    ensures scope { is_some result.scope ≡ is_compared result.fate }
    ensures builder { KeepsBuilder D.starts D.noop inspect.old inspect.new }
    ensures same_starts { D.starts inspect.new ≡ D.starts inspect.old }
    ensures seen { (goal : D.Cx.Input) (frames : Option (List D.Frame)) → D.sees inspect.old goal frames →
        D.sees inspect.new goal frames }
{
    if !D::inspect_is_noop(inspect) {
        return Consulted {
            stored: None,
            fate: Fate::NotStored,
            scope: None,
        };
    }
    // The scope is entered first: what is looked up belongs to it.
    let scope = D::enter_validation_scope(cache.cx(), input);
    let Some(stored) = look_up::<D>(cache, provisional, stack, step, input, depth) else {
        // Most questions end here: nothing is handed on, and so nothing copied. There is nothing to compare with,
        // either, so the scope is dropped at once.
        return Consulted {
            stored: None,
            fate: Fate::Stored,
            scope: None,
        };
    };
    if scope.is_none() {
        return Consulted {
            stored: Some(stored),
            fate: Fate::Stored,
            scope: None,
        };
    }
    Consulted {
        stored: None,
        fate: Fate::Compared(stored.result),
        scope,
    }
}
