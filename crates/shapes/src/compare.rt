//! Whether shapes are equal, in words of shapes alone.
ghost use Rattle.std.specs.Prelude.{◌≡◌, true, false, Ok};
ghost use Rattle.shapes.specs.Below.{Neither, No, Yes};
ghost use Rattle.shapes.specs.Bisimulation.{AreEqual, equations_of};
ghost use Rattle.shapes.specs.Compared.{compared, had_limits};

use crate::comparison::Comparison;
use crate::delegate::{Pair, PairsOf, ShapesDelegate};
use crate::equations::Shapes;
use delegate_parts::{Builder, Lends, Outcome};
use question_lists::{ContextOf, Listed};
use search_graph::graph::SearchGraph;
use search_graph::law::decisive::decisive_results;
use search_parts::context::{Fault, Verdict};
use search_parts::global_cache::GlobalCache;
use search_parts::path::PathKind;
use std::alloc::Global;

impl<S: Lends<Shapes>> Comparison<S> {
    /// Compares these shapes. It takes no memory yet.
    pub fn new(alloc: Global, shapes: S) -> Comparison<S>
        ensures shapes { compared result ≡ equations_of (S.lent_by shapes) }
        ensures no_limits { had_limits result ≡ false }
    {
        Comparison {
            cache: GlobalCache::new(alloc, ContextOf(Listed(PairsOf { lender: shapes }))),
            limits_met: false,
            alloc,
        }
    }

    /// Whether a question was cut off since the comparison was made, by its depth or by the most runs.
    pub fn limits_met(&self) -> bool
        ensures { result ≡ had_limits self.now }
    {
        self.limits_met
    }

    /// Whether two shapes, which are told by their numbers, are equal: `Yes` or `No`, and `Neither` where the depth did
    /// not suffice now, or for an answer that is still stored. The depth is how many pairs may be nested below this one;
    /// that many as there are pairs of shapes suffices.
    ///
    /// `Fault::Memory` where memory is out. The comparison can be used again after a fault.
    pub fn are_equal(
        &mut self,
        left: usize,
        right: usize,
        depth: usize,
    ) -> Result<Verdict, Fault<Pair, Outcome>>
        ensures yes { result ≡ Ok Yes → AreEqual (compared self.old) left right }
        ensures no { result ≡ Ok No → AreEqual (compared self.old) left right → ⊥ }
        ensures neither { result ≡ Ok Neither → had_limits self.new ≡ true }
        ensures limits_stay { had_limits self.old ≡ true → had_limits self.new ≡ true }
        ensures same_shapes { compared self.new ≡ compared self.old }
    {
        decisive_results::<ShapesDelegate<S>>();
        let mut graph = SearchGraph::<ShapesDelegate<S>>::new(self.alloc, depth);
        let mut builder = Builder::new(true);
        let pair = Pair { left, right };
        let answer = graph.evaluate_goal(
            &mut self.cache,
            pair,
            PathKind::Coinductive,
            &mut builder,
        );
        self.limits_met = self.limits_met || graph.limits_met();
        Ok(answer?.result.verdict())
    }
}
