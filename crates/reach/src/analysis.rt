//! Which variables may have been written, in words of paths alone.
ghost use Rattle.std.specs.Prelude.{◌≡◌, ◌↔◌, true, IfOk, IsTrue};
ghost use Rattle.reach.specs.Analysed.{analysed};
ghost use Rattle.reach.specs.Paths.{IsWrittenBefore};
ghost use Rattle.reach.specs.Program.{blocks_of};

use crate::delegate::{Point, PointsOf, ReachDelegate};
use crate::program::Program;
use delegate_parts::{Builder, Lends, Outcome};
use question_lists::{ContextOf, Listed};
use search_context::context::NoMemory;
use search_graph::graph::SearchGraph;
use search_parts::global_cache::GlobalCache;
use search_parts::path::PathKind;
use std::alloc::Global;

/// Answers questions about the program that a `P` lends, as `&Program` does. What one question finds out is used in the
/// next ones.
#[derive(Drop)]
pub struct Analysis<P: Lends<Program>> {
    cache: GlobalCache<ReachDelegate<P>>,
    // Renewed for each question, which takes over the memory of the last one.
    graph: SearchGraph<ReachDelegate<P>>,
}

impl<P: Lends<Program>> Analysis<P> {
    /// Answers questions about this program. It takes no memory yet.
    pub fn new(alloc: Global, program: P) -> Analysis<P>
        ensures { analysed P.lent_by result ≡ blocks_of (P.lent_by program) }
    {
        Analysis {
            cache: GlobalCache::new(alloc, ContextOf(Listed(PointsOf { lender: program }))),
            graph: SearchGraph::new(alloc, 0),
        }
    }

    /// Whether the variable may have been written before the block is entered: whether some way back from the block
    /// leads to one that writes it. A number that is no block is entered from nowhere.
    ///
    /// `NoMemory` where memory is out. The analysis can be used again then.
    pub fn may_be_written(&mut self, block: usize, variable: u32) -> Result<bool, NoMemory>
        ensures exact { IfOk result (λ answer.
            IsTrue answer ↔ IsWrittenBefore (analysed P.lent_by self.old) block variable) }
        ensures same_program { analysed P.lent_by self.new ≡ analysed P.lent_by self.old }
    {
        self.graph.renew(block);
        let mut builder = Builder::new(true);
        let point = Point { block, variable };
        let asked = self
            .graph
            .evaluate_goal(&mut self.cache, point, PathKind::Inductive, &mut builder);
        match asked {
            Ok(answer) => Ok(matches!(answer.result, Outcome::Yes)),
            Err(_) => Err(NoMemory), // no other fault comes
        }
    }
}
