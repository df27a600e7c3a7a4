//! What is known of a goal once its evaluation has ended.
ghost use Rattle.std.specs.Prelude.{◌≡◌};

use crate::nested_goals::NestedGoals;
use crate::stack::StackEntry;
use cycle_heads::heads::CycleHeads;
use search_context::context::{Cx, NodeId};

/// The result of a goal, and what it rests on. Ports `EvaluationResult`.
#[derive(Drop)]
pub struct EvaluationResult<X: Cx> {
    /// Whether a question was refused below the goal in one of its runs.
    pub encountered_overflow: bool,
    /// How many goals were nested below the goal, over all its runs.
    pub required_depth: usize,
    /// The goals on the stack that the result rests on. Without heads it holds on its own.
    pub heads: CycleHeads,
    /// The goals that were asked below the goal in its runs.
    pub nested_goals: NestedGoals<X::Input>,
    /// The result of the last run, or what stands for it where the goal had its most runs.
    pub result: X::Result,
    /// The node of a definite result.
    pub node: Option<NodeId>,
}

impl<X: Cx> EvaluationResult<X> {
    /// The result of a goal that was popped from the stack. Required depth, heads and nested goals, which
    /// all its runs share, are those of its entry. Takes no memory. Ports `EvaluationResult::finalize`.
    #[inline(always)]
    pub fn finalize(
        mut final_entry: StackEntry<X>,
        encountered_overflow: bool,
        final_result: X::Result,
        node: Option<NodeId>,
    ) -> EvaluationResult<X>
        ensures { result ≡ record {
          encountered_overflow = encountered_overflow;
          required_depth = final_entry.state.required_depth;
          heads = final_entry.state.heads;
          nested_goals = final_entry.state.nested_goals;
          result = final_result;
          node = node;
        } }
    {
        if final_entry.state.heads.is_empty() {
            // What rests on no goal is stored, and its nested goals are only read from now on.
            final_entry.state.nested_goals.shrink();
        }
        EvaluationResult {
            encountered_overflow,
            required_depth: final_entry.state.required_depth,
            heads: final_entry.state.heads,
            nested_goals: final_entry.state.nested_goals,
            result: final_result,
            node,
        }
    }
}

/// A stored result that is used. Ports `CacheData`.
#[derive(Drop)]
pub struct CacheData<'a, X: Cx> {
    /// The result.
    pub result: X::Result,
    /// What the result is tracked by.
    pub token: X::DepNodeIndex,
    /// How many goals have to be nested below the goal.
    pub required_depth: usize,
    /// Whether the result met overflow.
    pub encountered_overflow: bool,
    /// The goals that were asked below the goal.
    pub nested_goals: &'a NestedGoals<X::Input>,
    /// The node of a definite result.
    pub node: Option<NodeId>,
}
