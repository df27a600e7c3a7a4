//! The stored results of goals: of each goal at most one success, and for each depth at most one
//! result that met overflow.
ghost use Rattle.std.specs.Prelude.{◌≡◌, ℕ, false, [], IfErr, OnOk, OnErr};
ghost use Rattle.std.specs.Option.{option_map};
ghost use Rattle.global_cache.specs.Below.{IsPlainTo, Memory, verdicts, HasGraph};
ghost use Rattle.global_cache.specs.Words.{IsPlainAt, Success, WithOverflow, is_of_overflow, place_of, stored_at, stored_from, AnswersStoring, KeepsResults, Puts};

use crate::GlobalCache;
use search_context::context::{Cx, Delegate, Fault, NodeId, Tracked};
use search_stack::nested_goals::NestedGoals;
use search_stack::result::EvaluationResult;
use std::hash::{Hash, Hasher};

/// Where a result of a goal is stored.
#[derive(Clone, Copy, PartialEq, Eq)]
pub enum Place {
    /// Where its result is that met no overflow.
    Success,
    /// Where its result is that met overflow and required this depth.
    WithOverflow(usize),
}

// A success is looked for at each question, so its place adds nothing to the hash of its goal.
impl Hash for Place {
    ghost use Rattle.global_cache.specs.Store.{hashed_of};
    ghost use Rattle.std.proofs.Common.{rules};
    ghost use Rattle.std.specs.Cmp.Rules.{hashing};

    ghost hash_input = { hashed_of };

    ghost respects_eq = { Prim.search (hashing, rules) };

    fn hash<H: Hasher>(&self, state: &mut H) {
        if let Place::WithOverflow(depth) = self {
            depth.hash(state);
        }
    }
}

impl Place {
    // Where a result of a goal belongs.
    fn of<X: Cx>(evaluation_result: &EvaluationResult<X>) -> Place
        ensures { result ≡ place_of evaluation_result.now }
    {
        if evaluation_result.encountered_overflow {
            Place::WithOverflow(evaluation_result.required_depth)
        } else {
            Place::Success
        }
    }

    // Whether results that met overflow have their place there.
    pub(super) fn is_of_overflow(self) -> bool
        ensures { result ≡ is_of_overflow self }
    {
        matches!(self, Place::WithOverflow(_))
    }
}

/// A result of a goal as it is stored. Ports `Success` and `WithOverflow`.
#[derive(Drop)]
pub struct StoredResult<I: Eq + Hash + Copy, R: Copy, T: Copy> {
    /// How many goals have to be nested below the goal.
    pub required_depth: usize,
    /// The goals that were asked below the goal.
    pub nested_goals: NestedGoals<I>,
    /// The result and its token.
    pub result: Tracked<R, T>,
    /// The node of a definite result.
    pub node: Option<NodeId>,
}

// What is stored of a result.
fn stored_of<X: Cx>(
    evaluation_result: EvaluationResult<X>,
    token: X::DepNodeIndex,
) -> StoredResult<X::Input, X::Result, X::DepNodeIndex>
    ensures { result ≡ stored_from evaluation_result token }
{
    StoredResult {
        required_depth: evaluation_result.required_depth,
        nested_goals: evaluation_result.nested_goals,
        result: Tracked {
            result: evaluation_result.result,
            token,
        },
        node: evaluation_result.node,
    }
}

impl<D: Delegate> GlobalCache<D> {
    /// Stores a result of the goal with its token: one that met overflow among the results that did,
    /// under its required depth, any other as the success. What is stored in its place is replaced where
    /// its result is equal, which takes no memory. Where it is another one, the answer is `Conflict`;
    /// `Memory` where nothing is stored there and a growth was refused. Both leave the cache as it was,
    /// and what was stored stays equal in any case.
    ///
    /// What is stored is used wherever the goal is asked again, so it must be right there. A result with
    /// heads holds only above these goals of the stack: it may have none. A definite result comes with a
    /// node of the goal whose graph shows it. And where the goal has a rank, a success is the goal's plain
    /// value, and a result that met overflow requires a depth below the rank. Ports `GlobalCache::insert`.
    pub fn insert(
        &mut self,
        input: <D::Cx as Cx>::Input,
        evaluation_result: EvaluationResult<D::Cx>,
        token: <D::Cx as Cx>::DepNodeIndex,
    ) -> Result<(), Fault<<D::Cx as Cx>::Input, <D::Cx as Cx>::Result>>
        requires no_heads { evaluation_result.heads ≡ [] }
        requires graph { HasGraph (verdicts D.Cx.Cx) self.old.nodes input
            evaluation_result.result evaluation_result.node }
        requires plain { IsPlainAt (D.script self.old.cx) input
            (place_of evaluation_result) evaluation_result.result }
        ensures ok { OnOk result (Puts D.Cx.Input.eq self.old.results self.new.results input
            (place_of evaluation_result) (stored_from evaluation_result token)) }
        ensures rest { self.new ≡ record self.old { results = self.new.results } }
        ensures err { OnErr result (self.new ≡ self.old) }
        ensures answer { AnswersStoring D.Cx.Result.eq input
            (stored_at D.Cx.Input.eq self.old.results input (place_of evaluation_result))
            evaluation_result.result result }
        ensures kept { KeepsResults D.Cx.Input.eq self.old.results self.new.results }
        // A success of a goal that has a rank never conflicts.
        ensures ranked { (n : ℕ) → IsPlainTo (D.script self.old.cx) n input
            → evaluation_result.encountered_overflow ≡ false
            → IfErr result (λ fault. fault ≡ Memory) }
    {
        let place = Place::of(&evaluation_result);
        let found = stored_of(evaluation_result, token);
        self.results.put(input, place, found)
    }

    /// The goal's success and the depth that it requires, if one is stored.
    pub fn success_of(&self, input: <D::Cx as Cx>::Input) -> Option<(<D::Cx as Cx>::Result, usize)>
        ensures { result ≡ option_map (λ s. (s.result.result, s.required_depth))
            (stored_at D.Cx.Input.eq self.now.results input Success) }
    {
        let Some(stored) = self.results.at(input, Place::Success) else {
            return None;
        };
        Some((stored.result.result, stored.required_depth))
    }

    /// The goal's result that met overflow and required this depth, if one is stored.
    pub fn overflow_at(
        &self,
        input: <D::Cx as Cx>::Input,
        depth: usize,
    ) -> Option<<D::Cx as Cx>::Result>
        ensures { result ≡ option_map (λ s. s.result.result)
            (stored_at D.Cx.Input.eq self.now.results input (WithOverflow depth)) }
    {
        let Some(stored) = self.results.overflow_at(input, depth) else {
            return None;
        };
        Some(stored.result.result)
    }
}
