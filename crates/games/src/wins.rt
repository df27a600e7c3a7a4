//! From which positions One wins, in words of games alone.
ghost use Rattle.std.specs.Prelude.{◌≡◌, true, false, Ok};
ghost use Rattle.games.specs.Below.{Neither, No, Yes};
ghost use Rattle.games.specs.Solved.{had_limits, solved};
ghost use Rattle.games.specs.Strategy.{positions_of, Strategy};

use crate::delegate::{GamesDelegate, PositionsOf};
use crate::game::Game;
use crate::solver::Solver;
use delegate_parts::{Builder, Lends, Outcome};
use question_lists::{ContextOf, Listed};
use search_graph::graph::SearchGraph;
use search_graph::law::decisive::decisive_results;
use search_parts::context::{Fault, Verdict};
use search_parts::global_cache::GlobalCache;
use search_parts::path::PathKind;
use std::alloc::Global;

impl<G: Lends<Game>> Solver<G> {
    /// Solves this game. It takes no memory yet.
    pub fn new(alloc: Global, game: G) -> Solver<G>
        ensures game { solved result ≡ positions_of (G.lent_by game) }
        ensures no_limits { had_limits result ≡ false }
    {
        Solver {
            cache: GlobalCache::new(alloc, ContextOf(Listed(PositionsOf { lender: game }))),
            limits_met: false,
            alloc,
        }
    }

    /// Whether a question was cut off since the solver was made, by its depth or by the most runs.
    pub fn limits_met(&self) -> bool
        ensures { result ≡ had_limits self.now }
    {
        self.limits_met
    }

    /// Whether One wins from the position with this number: `Yes` or `No`, and `Neither` where a limit was met now, or for
    /// an answer that is still stored. The depth is how many positions may stand below this one on the way to an answer;
    /// as many as the game has suffice.
    ///
    /// `Fault::Memory` where memory is out. The solver can be used again after a fault.
    pub fn wins(&mut self, position: usize, depth: usize) -> Result<Verdict, Fault<usize, Outcome>>
        ensures yes { result ≡ Ok Yes → Strategy (solved self.old) position }
        ensures no { result ≡ Ok No → Strategy (solved self.old) position → ⊥ }
        ensures neither { result ≡ Ok Neither → had_limits self.new ≡ true }
        ensures limits_stay { had_limits self.old ≡ true → had_limits self.new ≡ true }
        ensures same_game { solved self.new ≡ solved self.old }
    {
        decisive_results::<GamesDelegate<G>>();
        let mut graph = SearchGraph::<GamesDelegate<G>>::new(self.alloc, depth);
        let mut builder = Builder::new(true);
        let answer = graph.evaluate_goal(
            &mut self.cache,
            position,
            PathKind::Inductive,
            &mut builder,
        );
        self.limits_met = self.limits_met || graph.limits_met();
        Ok(answer?.result.verdict())
    }
}
