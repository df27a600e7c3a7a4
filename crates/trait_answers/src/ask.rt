//! Whether a type implements a trait.
ghost use Rattle.std.specs.Prelude.{◌≡◌, ◌&&◌, nat_le, true, false, length, List, IfErr, IfOk};
ghost use Rattle.trait_answers.specs.Answered.{CanBeTold, IsImplemented, IsNotImplemented, IsTold};
ghost use Rattle.trait_answers.specs.Asking.{known_by, was_wanted};
ghost use Rattle.trait_answers.specs.Below.{AreRight, IsCaused, IsProved, IsRefuted, Memory, No, TwoRunsAreEnough, Yes};
ghost use Rattle.trait_answers.specs.Deciding.{EndsDecided, EndsTold, KeepsDeciding};

use crate::answers::{Answered, Answers};
use candidate_lists::{AnyOf, ContextOf};
use delegate_parts::{Builder, Lends, Outcome};
use search_graph::graph::SearchGraph;
use search_parts::context::{Answer, Cx, Delegate, Fault};
use search_parts::global_cache::GlobalCache;
use search_parts::path::PathKind;
use std::alloc::Global;
use trait_goals::{Goals, GoalsDelegate, GoalsOf};
use two_runs::law::{nothing_is_settled, two_runs};

// A cache that has no answers yet.
fn empty_cache<L: Lends<Goals>>(alloc: Global, lender: L) -> GlobalCache<GoalsDelegate<L>>
    ensures same_goals { result.cx.0.0.lender ≡ lender }
    ensures ready { KeepsDeciding ⟦<usize as PartialEq>⟧.eq (L.lent_by lender) result }
{
    nothing_is_settled::<GoalsDelegate<L>>();
    GlobalCache::new(alloc, ContextOf(AnyOf(GoalsOf { lender })))
}

// Evaluates a goal.
fn evaluated<D: Delegate>(
    cache: &mut GlobalCache<D>,
    graph: &mut SearchGraph<D>,
    goal: <D::Cx as Cx>::Input,
    inspect: &mut D::ProofTreeBuilder,
) -> Result<Answer<<D::Cx as Cx>::Result>, Fault<<D::Cx as Cx>::Input, <D::Cx as Cx>::Result>>
    ensures yes { IfOk result (λ answer. D.Cx.is_yes answer.result ≡ true →
        IsProved D.Cx.Cx cache.new goal answer.node) }
    ensures no { IfOk result (λ answer. D.Cx.is_no answer.result ≡ true →
        IsRefuted D.Cx.Cx cache.new goal answer.node) }
    ensures decided { (goals : List D.Cx.Input) →
        TwoRunsAreEnough D.Delegate D.Cx.Cx D.Cx.Input.eq goals cache.old graph.old.root_depth goal
        (D.noop inspect.old) → graph.old.limits_met ≡ false →
        EndsDecided D.Delegate D.Cx.Cx D.Cx.Input.eq goals cache.old.cx result graph.new.limits_met
        cache.new }
    ensures faults { IfErr result (IsCaused D.Delegate D.Cx.Cx D.Cx.Input.eq cache.new) }
    ensures same_context { cache.new.cx ≡ cache.old.cx }
{
    two_runs::<D>();
    graph.evaluate_goal(cache, goal, PathKind::Inductive, inspect)
}

// How many goals are lent.
fn count_of<L: Lends<Goals>>(cache: &GlobalCache<GoalsDelegate<L>>) -> usize
    ensures { result ≡ length (L.lent_by cache.now.cx.0.0.lender).asked }
{
    cache.cx().0.0.lender.lent().len()
}

// What is lent is right of all goals, which a goal that is asked tells.
fn goals_are_right<L: Lends<Goals>>(cache: &GlobalCache<GoalsDelegate<L>>, goal: usize)
    ensures { AreRight (L.lent_by cache.now.cx.0.0.lender) }
{
    let _asked = cache.cx().0.0.lender.lent().asked(goal);
}

// Asks a goal at a depth.
fn asked<L: Lends<Goals>>(
    cache: &mut GlobalCache<GoalsDelegate<L>>,
    graph: &mut SearchGraph<GoalsDelegate<L>>,
    goal: usize,
    depth: usize,
) -> Result<Answered, Fault<usize, Outcome>>
    ensures yes { IfOk result (λ answered. answered.outcome ≡ Yes →
        IsImplemented (L.lent_by cache.old.cx.0.0.lender) goal) }
    ensures no { IfOk result (λ answered. answered.outcome ≡ No →
        IsNotImplemented (L.lent_by cache.old.cx.0.0.lender) goal) }
    ensures told { CanBeTold (L.lent_by cache.old.cx.0.0.lender) goal depth →
        KeepsDeciding ⟦<usize as PartialEq>⟧.eq (L.lent_by cache.old.cx.0.0.lender) cache.old →
        EndsTold ⟦<usize as PartialEq>⟧.eq (L.lent_by cache.old.cx.0.0.lender) result cache.new }
    ensures same_context { cache.new.cx ≡ cache.old.cx }
{
    goals_are_right(cache, goal);
    graph.renew(depth);
    let mut builder = Builder::new(true);
    match evaluated(cache, graph, goal, &mut builder) {
        Ok(answer) => Ok(Answered {
            outcome: answer.result,
            limits_met: graph.limits_met(),
        }),
        Err(fault) => Err(fault),
    }
}

// Whether each question had as much depth as there are goals, with one more of this depth.
fn has_depth(had_depth: bool, count: usize, depth: usize) -> bool
    ensures { result ≡ (had_depth && nat_le count depth) }
{
    had_depth && count <= depth
}

impl<L: Lends<Goals>> Answers<L> {
    /// Answers about the goals that are lent. It takes no memory yet.
    pub fn new(alloc: Global, lender: L) -> Answers<L>
        ensures goals { known_by L.lent_by result ≡ L.lent_by lender }
        ensures deep { result.had_depth ≡ true }
    {
        Answers {
            cache: empty_cache(alloc, lender),
            graph: SearchGraph::new(alloc, 0),
            had_depth: true,
        }
    }

    /// Whether the type of the goal with this number implements its trait. The depth is how many
    /// goals may stand below this one on the way to an answer; as many as there are suffice.
    ///
    /// Where all goals are decided (`Goals::are_all_decided`), and each question so far and this one
    /// have as much depth as there are goals, the answer is yes or no.
    ///
    /// `Fault::Memory` where memory is out. The answers can be used again after a fault. A number
    /// that is no goal's is answered maybe.
    pub fn implements(
        &mut self,
        goal: usize,
        depth: usize,
    ) -> Result<Answered, Fault<usize, Outcome>>
        ensures yes { IfOk result (λ answered. answered.outcome ≡ Yes →
            IsImplemented (known_by L.lent_by self.old) goal) }
        ensures no { IfOk result (λ answered. answered.outcome ≡ No →
            IsNotImplemented (known_by L.lent_by self.old) goal) }
        ensures told { self.old.had_depth ≡ true → CanBeTold (known_by L.lent_by self.old) goal depth →
            IfOk result (λ answered. IsTold (known_by L.lent_by self.old) goal answered.outcome) }
        ensures unmet { self.old.had_depth ≡ true → CanBeTold (known_by L.lent_by self.old) goal depth →
            IfOk result (λ answered. answered.limits_met ≡ false) }
        ensures faults { self.old.had_depth ≡ true →
            CanBeTold (known_by L.lent_by self.old) goal depth → IfErr result (λ fault. fault ≡ Memory) }
        ensures deep { self.new.had_depth ≡ (self.old.had_depth
            && nat_le (length (known_by L.lent_by self.old).asked) depth) }
        ensures same_goals { known_by L.lent_by self.new ≡ known_by L.lent_by self.old }
    {
        let count = count_of(&self.cache);
        self.had_depth = has_depth(self.had_depth, count, depth);
        if goal >= count {
            return Ok(Answered {
                outcome: Outcome::Maybe,
                limits_met: false,
            });
        }
        asked(&mut self.cache, &mut self.graph, goal, depth)
    }

    /// Whether each question so far had as much depth as there are goals.
    pub fn had_depth(&self) -> bool
        ensures { result ≡ self.now.had_depth }
    {
        self.had_depth
    }

    /// Whether the candidates of the goal are not known, and a question so far came to it: a result
    /// of the goal is stored.
    pub fn was_wanted(&self, goal: usize) -> bool
        ensures { result ≡ was_wanted L.lent_by ⟦<usize as PartialEq>⟧.eq self.now goal }
    {
        // A goal that asks itself alone is cut off with no depth left, and with no other one.
        let lender = self.cache.cx().0.0.lender;
        let is_known = lender.lent().candidates(goal).is_some();
        let cache = &self.cache;
        !is_known && (cache.success_of(goal).is_some() || cache.overflow_at(goal, 0).is_some())
    }
}
