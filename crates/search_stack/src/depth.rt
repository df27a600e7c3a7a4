//! How deep the goals below a goal may go.
ghost use Rattle.std.specs.Prelude.{◌≡◌, ◌↔◌, ◌≤◌, IsTrue};
ghost use Rattle.std.specs.Option.{option_map};
ghost use Rattle.search_stack.specs.Words.{allowed_depth};

use crate::stack::Stack;
pub use cycle_heads::depth::StackDepth;
use search_context::context::Delegate;

/// How many goals may be nested below a goal. Ports `AvailableDepth`.
#[derive(Clone, Copy, Debug, PartialEq, Eq, PartialOrd, Ord, Hash)]
pub struct AvailableDepth(pub usize);

impl AvailableDepth {
    /// The depth that a question gets: on an empty stack the root depth; else one less than the last
    /// goal's, or, once that has met overflow in this run, its depth divided by the delegate's divisor,
    /// so that a search that is too deep ends soon. `None` where the last goal has depth 0: the question
    /// is refused. Ports `AvailableDepth::allowed_depth_for_nested`.
    pub fn allowed_depth_for_nested<D: Delegate>(
        root_depth: AvailableDepth,
        stack: &Stack<D::Cx>,
    ) -> Option<AvailableDepth>
        ensures { option_map (λ depth. depth.0) result
            ≡ allowed_depth D.DIVIDE_AVAILABLE_DEPTH_ON_OVERFLOW root_depth.0 stack.now }
    {
        if stack.is_empty() {
            return Some(root_depth);
        }
        let last = stack.last();
        let AvailableDepth(depth) = last.available_depth();
        if depth == 0 {
            None
        } else if last.state.encountered_overflow {
            Some(AvailableDepth(depth / D::DIVIDE_AVAILABLE_DEPTH_ON_OVERFLOW))
        } else {
            Some(AvailableDepth(depth - 1))
        }
    }

    /// Whether a result that required depth `n` may be used at this depth. Ports
    /// `AvailableDepth::cache_entry_is_applicable`.
    pub fn cache_entry_is_applicable(self, n: usize) -> bool
        ensures { IsTrue result ↔ (n ≤ self.0) }
    {
        self.0 >= n
    }
}
