//! Why goals are neither yes nor no.
ghost use Rattle.std.specs.Prelude.{◌≡◌, ◌↔◌, ◌||◌, Bool, IfOk, IfSome, IsTrue, false, is_some, nat_eq, not, true};
ghost use Rattle.delegate_parts.specs.Outcome.{is_no, is_yes};
ghost use Rattle.sessions.specs.Below.{Outcome as SpecOutcome};
ghost use Rattle.sessions.specs.Causes.{Asks, HasReason, IsAskedAnew, IsAskedBy, IsNamedByRows, asked_of, is_of_unknown, told_of};
ghost use Rattle.sessions.specs.Questions.{AreCountedStarts};
ghost use Rattle.sessions.specs.Rules.{is_unknown};
ghost use Rattle.watched_runs.specs.Reasons.{IsReason};

use crate::asking::Asked;
use crate::session::is_unknown;
use candidate_lists::{CandidateLists, CandidatesContext};
use delegate_parts::{Builder, Outcome};
use rule_arrays::{ArraysDelegate, LendsArrays, RulesIn};
use search_graph::graph::SearchGraph;
use search_graph::law::limits::price;
use search_parts::context::{Cx, Delegate, Fault};
use search_parts::global_cache::GlobalCache;
use search_parts::path::PathKind;
use std::alloc::Global;
use watched_runs::{Cut, NoProgress, Reason, Watcher, Watching};

/// The delegate of the goals of rows, with a builder that watches.
pub type WatchedRows<L> = Watching<CandidatesContext<RulesIn<L>>, ArraysDelegate<L>, NoProgress>;

/// What a goal came to over a cache of its own, and why that is neither yes nor no.
#[derive(Clone, Copy)]
pub struct Caused {
    pub outcome: Outcome,
    /// Whether a goal was cut off, since it had no depth left or its most runs.
    pub limits_met: bool,
    /// How many runs of goals were started.
    pub started: u64,
    /// Why the outcome is neither yes nor no, where it is neither. The question that was cut off first, if one is named, is one
    /// that a candidate of the goal beside it has.
    pub reason: Option<Reason<u32>>,
    /// Whether that goal's candidates are not known. Then this is why, and neither depth nor runs would help.
    pub is_unknown: bool,
}

// What a goal came to, and why as far as that was seen.
#[derive(Clone, Copy)]
pub(crate) struct Watched {
    pub(crate) asked: Asked,
    pub(crate) reason: Reason<u32>,
}

/// Asks the goal at this depth, watched, over a cache of its own.
pub(crate) fn ask_watched<X, D>(
    alloc: Global,
    cx: X,
    depth: usize,
    goal: u32,
) -> Result<Watched, Fault<u32, Outcome>>
where
    X: Cx<Input = u32, Result = Outcome>,
    D: Delegate<Cx = X, ProofTreeBuilder = Builder>,
    ensures asked { AreCountedStarts D.starts D.noop →
        IsAskedAnew ⟦<Watching<X, D, NoProgress> as Delegate>⟧ X.Cx
        ⟦<u32 as PartialEq>⟧.eq ⟦<Outcome as PartialEq>⟧.eq cx depth goal (asked_of result) }
    ensures reason { IfOk result (λ watched. IsReason (not (nat_eq watched.asked.started 0))
        watched.asked.limits_met watched.asked.outcome watched.reason) }
{
    price::<Watching<X, D, NoProgress>>();
    let mut cache = GlobalCache::<Watching<X, D, NoProgress>>::new(alloc, cx);
    let mut graph = SearchGraph::<Watching<X, D, NoProgress>>::new(alloc, depth);
    let mut watcher = Watcher::new(alloc, NoProgress);
    match graph.evaluate_goal(&mut cache, goal, PathKind::Inductive, &mut watcher) {
        Ok(answer) => {
            let is_limited = graph.limits_met();
            let seen = watcher.reason(answer.result, 0, is_limited);
            let reason = watcher.first_reason(seen, is_limited);
            let asked = Asked {
                outcome: answer.result,
                limits_met: is_limited,
                started: watcher.started(),
                node: answer.node,
            };
            Ok(Watched { asked, reason })
        }
        Err(fault) => Err(fault),
    }
}

/// What is told of that.
pub(crate) fn with_reason<L: LendsArrays>(rules: RulesIn<L>, watched: Watched) -> Caused
    ensures told { result ≡ told_of watched.asked result.reason result.is_unknown }
    ensures reason { IsReason (not (nat_eq watched.asked.started 0)) watched.asked.limits_met
        watched.asked.outcome watched.reason → HasReason (L.table_of rules.lender) result }
{
    let asked = watched.asked;
    let reason = reason_of(rules, watched);
    Caused {
        outcome: asked.outcome,
        limits_met: asked.limits_met,
        started: asked.started,
        reason,
        is_unknown: is_of_unknown(rules, reason),
    }
}

// The reason of what is neither yes nor no.
fn reason_of<L: LendsArrays>(rules: RulesIn<L>, watched: Watched) -> Option<Reason<u32>>
    ensures told { is_some result ≡ not (is_yes watched.asked.outcome || is_no watched.asked.outcome) }
    ensures named { IfSome result (IsNamedByRows (L.table_of rules.lender)) }
    ensures fits { (is_run is_limited : Bool) (outcome : SpecOutcome) →
        IsReason is_run is_limited outcome watched.reason → IfSome result (IsReason is_run is_limited outcome) }
{
    match watched.asked.outcome {
        Outcome::Yes | Outcome::No => None,
        Outcome::Maybe | Outcome::Overflow => Some(by_rows(rules, watched.reason)),
    }
}

// The reason, if the question that it names is one of a candidate, as it is in each search.
fn by_rows<L: LendsArrays>(rules: RulesIn<L>, reason: Reason<u32>) -> Reason<u32>
    ensures named { IsNamedByRows (L.table_of rules.lender) result }
    ensures same { IsNamedByRows (L.table_of rules.lender) reason → result ≡ reason }
    ensures fits { (is_run is_limited : Bool) (outcome : SpecOutcome) →
        IsReason is_run is_limited outcome reason → IsReason is_run is_limited outcome result }
{
    match reason {
        Reason::Cut(cut) if !is_asked(rules, cut) => Reason::Unnoted,
        _ => reason,
    }
}

// Whether a candidate of the goal that asked the question has it.
fn is_asked<L: LendsArrays>(rules: RulesIn<L>, cut: Cut<u32>) -> bool
    ensures { IsTrue result ↔ IsAskedBy (L.table_of rules.lender) cut }
{
    for candidate in 0..usize::MAX {
        let Some(_is_marked) = rules.mark(cut.by, candidate) else {
            return false;
        };
        if asks(rules, cut, candidate) {
            return true;
        }
    }
    false
}

// Whether this one has it.
fn asks<L: LendsArrays>(rules: RulesIn<L>, cut: Cut<u32>, candidate: usize) -> bool
    ensures { IsTrue result ↔ Asks (L.table_of rules.lender) cut candidate }
{
    for place in 0..usize::MAX {
        match rules.question(cut.by, candidate, place) {
            Some((kind, asked)) => {
                if is_question(cut, kind, asked) {
                    return true;
                }
            }
            None => return false,
        }
    }
    false
}

fn is_question(cut: Cut<u32>, kind: PathKind, asked: u32) -> bool
    ensures yes { result ≡ true → (kind ≡ cut.kind) × (asked ≡ cut.asked) }
    ensures no { result ≡ false → kind ≡ cut.kind → asked ≡ cut.asked → ⊥ }
{
    if asked != cut.asked {
        return false;
    }
    kind == cut.kind
}

// Whether the candidates of the goal that asked the question are not known.
fn is_of_unknown<L: LendsArrays>(rules: RulesIn<L>, reason: Option<Reason<u32>>) -> bool
    ensures { result ≡ is_of_unknown (L.table_of rules.lender) reason }
{
    match reason {
        Some(Reason::Cut(cut)) => is_goal_unknown(rules.lender, cut.by),
        _ => false,
    }
}

fn is_goal_unknown<L: LendsArrays>(lender: L, goal: u32) -> bool
    ensures { result ≡ is_unknown (L.table_of lender) goal }
{
    match lender.goals().get(goal as usize) {
        Some(row) => is_unknown(*row),
        None => false,
    }
}
