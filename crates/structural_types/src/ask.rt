//! Whether a type is below another, in words of types alone.
ghost use Rattle.std.specs.Prelude.{◌≡◌, ◌≤◌, ◌↔◌, true, IfErr, IfOk, List, length};
ghost use Rattle.type_order.specs.Subtypes.{IsBelow, forms_of};
ghost use Rattle.structural_types.specs.Asked.{declared_in};
ghost use Rattle.structural_types.specs.Below.{IsCaused, IsProved, IsRefuted, Memory, TwoRunsAreEnough};
ghost use Rattle.structural_types.specs.Deciding.{EndsDecided, KeepsDeciding};

use crate::subtyping::{Subtyping, TypesDelegate};
use delegate_parts::{Builder, ContextOf, Lends, Outcome};
use question_lists::Listed;
use search_graph::graph::SearchGraph;
use search_parts::context::{Answer, Cx, Delegate, Fault};
use search_parts::global_cache::GlobalCache;
use search_parts::path::PathKind;
use std::alloc::Global;
use two_runs::law::{nothing_is_settled, two_runs};
use type_order::{Pair, PairsOf, Types};

// A cache that has no answers yet.
fn empty_cache<T: Lends<Types>>(alloc: Global, types: T) -> GlobalCache<TypesDelegate<T>>
    ensures same_types { result.cx.0.0.lender ≡ types }
    ensures ready { KeepsDeciding ⟦<Pair as PartialEq>⟧.eq (forms_of (T.lent_by types)) result }
{
    nothing_is_settled::<TypesDelegate<T>>();
    GlobalCache::new(alloc, ContextOf(Listed(PairsOf { lender: types })))
}

// A graph without goals. It is renewed before it is asked.
fn empty_graph<T: Lends<Types>>(alloc: Global) -> SearchGraph<TypesDelegate<T>> {
    SearchGraph::new(alloc, usize::MAX)
}

// How many types are declared.
fn declared_count<T: Lends<Types>>(cache: &GlobalCache<TypesDelegate<T>>) -> usize
    ensures { result ≡ length (forms_of (T.lent_by cache.now.cx.0.0.lender)) }
{
    cache.cx().0.0.lender.lent().count()
}

// Evaluates a goal with all the depth that there is: no more goals can be nested.
fn evaluated<D: Delegate>(
    cache: &mut GlobalCache<D>,
    graph: &mut SearchGraph<D>,
    goal: <D::Cx as Cx>::Input,
    inspect: &mut D::ProofTreeBuilder,
) -> Result<Answer<<D::Cx as Cx>::Result>, Fault<<D::Cx as Cx>::Input, <D::Cx as Cx>::Result>>
    ensures yes { IfOk result (λ answer. D.Cx.is_yes answer.result ≡ true →
        IsProved D.Cx.Cx cache.new goal answer.node) }
    ensures no { IfOk result (λ answer. D.Cx.is_no answer.result ≡ true →
        IsRefuted D.Cx.Cx cache.new goal answer.node) }
    ensures decided { (goals : List D.Cx.Input) →
        TwoRunsAreEnough D.Delegate D.Cx.Cx D.Cx.Input.eq goals cache.old 18446744073709551615 goal
        (D.noop inspect.old) →
        EndsDecided D.Delegate D.Cx.Cx D.Cx.Input.eq goals cache.old.cx result cache.new }
    ensures faults { IfErr result (IsCaused D.Delegate D.Cx.Cx D.Cx.Input.eq cache.new) }
    ensures same_context { cache.new.cx ≡ cache.old.cx }
{
    two_runs::<D>();
    graph.renew(usize::MAX);
    graph.evaluate_goal(cache, goal, PathKind::Coinductive, inspect)
}

// Whether the left type of the pair is below its right one.
fn asked<T: Lends<Types>>(
    cache: &mut GlobalCache<TypesDelegate<T>>,
    graph: &mut SearchGraph<TypesDelegate<T>>,
    pair: Pair,
) -> Result<bool, Fault<Pair, Outcome>>
    requires left { pair.left ≤ length (forms_of (T.lent_by cache.old.cx.0.0.lender)) }
    requires right { pair.right ≤ length (forms_of (T.lent_by cache.old.cx.0.0.lender)) }
    requires ready { ∥ KeepsDeciding ⟦<Pair as PartialEq>⟧.eq
        (forms_of (T.lent_by cache.old.cx.0.0.lender)) cache.old ∥₁ }
    ensures exact { IfOk result (λ answer. (answer ≡ true)
        ↔ IsBelow (forms_of (T.lent_by cache.old.cx.0.0.lender)) pair.left pair.right) }
    ensures faults { IfErr result (λ fault. fault ≡ Memory) }
    ensures same_context { cache.new.cx ≡ cache.old.cx }
    ensures ready { ∥ KeepsDeciding ⟦<Pair as PartialEq>⟧.eq
        (forms_of (T.lent_by cache.old.cx.0.0.lender)) cache.new ∥₁ }
{
    let mut builder = Builder::new(true);
    match evaluated(cache, graph, pair, &mut builder) {
        Ok(answer) => Ok(matches!(answer.result, Outcome::Yes)),
        Err(fault) => Err(fault),
    }
}

impl<T: Lends<Types>> Subtyping<T> {
    /// Questions about these types. It takes no memory yet.
    pub fn new(alloc: Global, types: T) -> Subtyping<T>
        ensures types { declared_in T.lent_by result ≡ forms_of (T.lent_by types) }
    {
        Subtyping {
            cache: empty_cache(alloc, types),
            graph: empty_graph(alloc),
        }
    }

    /// Whether the left type is below the right one. Types are told by their numbers, and one that is not declared is below
    /// the top and above the bottom alone.
    ///
    /// `Fault::Memory` where memory is out, and no other fault. What was found out till then stays, and the next question
    /// can be asked.
    pub fn is_below(&mut self, left: usize, right: usize) -> Result<bool, Fault<Pair, Outcome>>
        ensures exact { IfOk result (λ answer. (answer ≡ true)
            ↔ IsBelow (declared_in T.lent_by self.old) left right) }
        ensures faults { IfErr result (λ fault. fault ≡ Memory) }
        ensures same_types { declared_in T.lent_by self.new ≡ declared_in T.lent_by self.old }
    {
        // all numbers that are not declared are alike
        let undeclared = declared_count(&self.cache);
        let pair = Pair {
            left: left.min(undeclared),
            right: right.min(undeclared),
        };
        asked(&mut self.cache, &mut self.graph, pair)
    }
}
