//! One evaluation: a goal is worked out, with the goals that it asks.
ghost use Rattle.std.specs.Prelude.{◌≡◌, ◌<◌, ◌^◌, []};
ghost use Rattle.search_state.specs.Drafts.{HasNoDrafts};

use crate::drafts::Drafts;
use crate::scopes::HeldScopes;
use global_cache::GlobalCache;
use lean_runs::lean::LeanRuns;
use open_goals::goals::OpenGoals;
use provisional_cache::ProvisionalCache;
use run_records::spare::SpareMemory;
use search_context::context::{Cx, Delegate};
use search_stack::depth::AvailableDepth;
use std::alloc::Global;

/// Of a call with more runs than these no memory is kept but the `SpareMemory`, which has a bound of its own. Each goal on
/// the stack, each provisional entry and each stored result has a run, so what is kept else is no more than these need.
const MOST_RUNS: usize = 256;

/// The goals that are under evaluation in one call, each on the stack with its run, the scopes that are held for those whose
/// results are to be compared with stored ones, and what else the call has until it ends. The moves of the search are functions over it: a goal asks (`search_questions`), or its run ends
/// (`search_ends`). Between two moves nodes may be let go.
#[derive(Drop)]
pub struct Evaluation<D: Delegate> {
    pub goals: OpenGoals<D::Cx, D::Frame>,
    pub scopes: HeldScopes<D::ValidationScope>,
    pub provisional: ProvisionalCache<D>,
    pub root_depth: AvailableDepth,
    pub limits_met: bool,
    pub drafts: Drafts,
    pub spare: SpareMemory<<D::Cx as Cx>::Input, <D::Cx as Cx>::Result>,
    pub lean: LeanRuns<<D::Cx as Cx>::Input, <D::Cx as Cx>::Result>,
}

impl<D: Delegate> Evaluation<D> {
    /// One that has not begun, for goals that get this depth. It takes no memory yet.
    pub fn new(
        alloc: Global,
        root_depth: AvailableDepth,
        limits_met: bool,
        drafts: Drafts,
    ) -> Evaluation<D>
        ensures begins { result ≡ record {
          goals = [];
          scopes = [];
          provisional = [];
          root_depth = root_depth;
          limits_met = limits_met;
          drafts = drafts;
          spare = tt;
          lean = tt;
        } }
        ensures fits { root_depth.0 < 2 ^ 64 }
    {
        Evaluation {
            goals: OpenGoals::new(alloc),
            scopes: HeldScopes::new(alloc),
            provisional: ProvisionalCache::new(alloc),
            root_depth,
            limits_met,
            lean: LeanRuns::new(alloc, drafts.first),
            drafts,
            spare: SpareMemory::new(alloc),
        }
    }

    /// Begins anew over this cache, for goals that get this depth, with the memory that the last call left. It takes no
    /// more yet.
    pub fn begin(&mut self, root_depth: AvailableDepth, limits_met: bool, cache: &GlobalCache<D>)
        ensures begins { self.new ≡ record {
          goals = [];
          scopes = [];
          provisional = [];
          root_depth = root_depth;
          limits_met = limits_met;
          drafts = self.new.drafts;
          spare = tt;
          lean = tt;
        } }
        ensures drafts { HasNoDrafts cache.now.nodes self.new.drafts }
        ensures fits { root_depth.0 < 2 ^ 64 }
    {
        self.empty();
        self.root_depth = root_depth;
        self.limits_met = limits_met;
        self.drafts.begin(cache);
        self.lean.begin(cache.next_node());
    }

    /// Ends over this cache. What a fault has left is let go, and so is the memory of a call of many runs, which few calls
    /// would fill again; that of a short one serves the next call.
    pub fn end(&mut self, cache: &GlobalCache<D>)
        ensures { self.new ≡ record self.old {
          goals = [];
          scopes = [];
          provisional = [];
          drafts = self.new.drafts;
        } }
    {
        if self.drafts.written(cache) > MOST_RUNS {
            self.release();
            let alloc = self.goals.allocator();
            self.drafts.stored = Vec::new(alloc);
            self.lean = LeanRuns::new(alloc, self.drafts.first);
        }
        self.empty();
    }

    /// How many bytes of the heap it has room in, without what goals, scopes and entries hold: between calls there are none.
    pub fn room_bytes(&self) -> usize {
        self.goals
            .room_bytes()
            .saturating_add(self.scopes.room_bytes())
            .saturating_add(self.provisional.room_bytes())
            .saturating_add(self.drafts.held_bytes())
            .saturating_add(self.spare.held_bytes())
            .saturating_add(self.lean.held_bytes())
    }

    /// Lets go of the goals, the scopes and the entries that are left, and of their memory.
    pub fn release(&mut self)
        ensures { self.new ≡ record self.old { goals = []; scopes = []; provisional = [] } }
    {
        let alloc = self.goals.allocator();
        self.goals = OpenGoals::new(alloc);
        self.scopes = HeldScopes::new(alloc);
        self.provisional = ProvisionalCache::new(alloc);
    }

    /// Lets go of the goals, the scopes and the entries that are left, as they are after a fault.
    fn empty(&mut self)
        ensures { self.new ≡ record self.old { goals = []; scopes = []; provisional = [] } }
    {
        if self.goals.len() > 0 || !self.scopes.is_empty() || !self.provisional.is_empty() {
            self.release();
        }
    }
}
