//! Tests of the goals below a stored result, by which a cache finds it or not.

use search_parts::context::Cx;
use search_parts::global_cache::NestedTest;
use search_parts::parts::NestedGoals;

/// Accepts each result.
pub struct Anything;

impl<X: Cx> NestedTest<X> for Anything {
    ghost use Rattle.std.specs.Prelude.{true};

    ghost accepts = { λ test nested. true };

    fn accepts(&self, _nested_goals: &NestedGoals<X::Input>) -> bool {
        true
    }
}

/// Accepts results without goals below them.
pub struct Leaves;

impl<X: Cx> NestedTest<X> for Leaves {
    ghost use Rattle.test_delegates.specs.NestedTests.{has_none};

    ghost accepts = { λ test nested. has_none nested };

    fn accepts(&self, nested_goals: &NestedGoals<X::Input>) -> bool {
        nested_goals.is_empty()
    }
}
