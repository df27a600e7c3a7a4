//! How results of goals are found again.
ghost use Rattle.std.specs.Prelude.{◌≡◌, ◌≤◌, Bool, true, false, ◌∷◌, [], IfSome};
ghost use Rattle.std.specs.Option.{option_copied, option_map};
ghost use Rattle.graph_nodes.specs.Definite.{HasGraph};
ghost use Rattle.global_cache.specs.Hits.{first_accepted, hit_at, successes, usable};
ghost use Rattle.search_stack.specs.Hit.{hit_of};
ghost use Rattle.goal_paths.specs.Nested.{NestedPaths};
ghost use Rattle.search_context.specs.Rank.{IsBelowRank, IsPlain};
ghost use Rattle.search_context.specs.Verdicts.{verdicts};

use crate::GlobalCache;
use crate::result_store::ResultStore;
use crate::results::{Place, StoredResult};
use search_context::context::{Cx, Delegate};
use search_stack::depth::AvailableDepth;
use search_stack::nested_goals::NestedGoals;
use search_stack::result::CacheData;

/// A test of the goals below a stored result, by which a look-up finds out whether the result may be used.
/// Stands for the closure that `GlobalCache::get` takes in the original.
pub trait NestedTest<X: Cx> {
    /// What the test answers.
    ghost accepts: { Self → NestedPaths X.Input → Bool };

    /// Whether a result with these goals below it may be used.
    fn accepts(&self, nested_goals: &NestedGoals<X::Input>) -> bool
        ensures { result ≡ accepts self.now nested_goals.now };
}

impl<D: Delegate> GlobalCache<D> {
    /// A stored result of the goal that may be used at the available depth: its success, where the depth
    /// is at least what that requires and the test accepts its nested goals; otherwise its result that
    /// met overflow at exactly this depth, where the test accepts that one's. It takes no memory.
    ///
    /// A definite result that is used has its graph. Where the goal has a rank, a result without overflow
    /// is the goal's plain value, and one that met overflow is used only where the available depth is
    /// below the rank. None requires more than the available depth. Ports `GlobalCache::get`.
    pub fn get<T: NestedTest<D::Cx>>(
        &self,
        input: <D::Cx as Cx>::Input,
        available: AvailableDepth,
        test: &T,
    ) -> Option<CacheData<'_, D::Cx>>
        ensures found { option_map hit_of result
            ≡ first_accepted (T.accepts test.now)
            (usable D.Cx.Input.eq self.now.results input available.0) }
        ensures graph { IfSome result (λ hit.
            HasGraph (verdicts D.Cx.Cx) self.now.nodes input hit.result hit.node) }
        ensures value { IfSome result (λ hit.
            hit.encountered_overflow ≡ false → IsPlain (D.script self.now.cx) input hit.result) }
        ensures overflow { IfSome result (λ hit. hit.encountered_overflow ≡ true
            → IsBelowRank (D.script self.now.cx) input available.0) }
        ensures within { IfSome result (λ hit. hit.required_depth ≤ available.0) }
    {
        usable_result(&self.results, input, available, test)
    }
}

// The stored result of the goal that may be used at the available depth.
fn usable_result<'a, X: Cx, T: NestedTest<X>>(
    results: &'a ResultStore<X::Input, X::Result, X::DepNodeIndex>,
    input: X::Input,
    available: AvailableDepth,
    test: &T,
) -> Option<CacheData<'a, X>>
    ensures { option_map hit_of result
        ≡ first_accepted (T.accepts test.now)
        (usable X.Input.eq results.now input available.0) }
{
    let success = results.at(input, Place::Success);
    if let Some(hit) = use_success(success, available, test) {
        return Some(hit);
    }
    let Some(overflow) = results.overflow_at(input, available.0) else {
        return None;
    };
    used_at(overflow, available.0, true, test)
}

// The success, where it may be used at the available depth.
fn use_success<'a, X: Cx, T: NestedTest<X>>(
    success: Option<&'a StoredResult<X::Input, X::Result, X::DepNodeIndex>>,
    available: AvailableDepth,
    test: &T,
) -> Option<CacheData<'a, X>>
    ensures { option_map hit_of result
        ≡ first_accepted (T.accepts test.now)
        (successes available.0 (option_copied success.entry)) }
{
    let Some(stored) = success else {
        return None;
    };
    if !available.cache_entry_is_applicable(stored.required_depth) {
        return None;
    }
    used_at(stored, stored.required_depth, false, test)
}

// The result as it is used at this required depth, where the test accepts the goals below it.
fn used_at<'a, X: Cx, T: NestedTest<X>>(
    stored: &'a StoredResult<X::Input, X::Result, X::DepNodeIndex>,
    required_depth: usize,
    encountered_overflow: bool,
    test: &T,
) -> Option<CacheData<'a, X>>
    ensures { option_map hit_of result
        ≡ first_accepted (T.accepts test.now)
        (hit_at required_depth encountered_overflow stored.now ∷ []) }
{
    if !test.accepts(&stored.nested_goals) {
        return None;
    }
    Some(CacheData {
        result: stored.result.result,
        token: stored.result.token,
        required_depth,
        encountered_overflow,
        nested_goals: &stored.nested_goals,
        node: stored.node,
    })
}
