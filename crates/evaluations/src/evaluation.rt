//! An evaluation as a whole: plain values, the bound and the price in one invariant, which each move keeps.
ghost use Rattle.evaluations.specs.Words.{RootIsEvaluating, MoveGoesOn, LastFrameEnds, LastRunEnds, EvaluationStops, FailedStartStops, FittingMeetsNoLimit, EnclosedRefusesNone};

use search_context::context::Delegate;

/// An evaluation begins with its root and goes on by every move, with fewer steps ahead.
pub fn moves_go_on<D: Delegate>()
    ensures root { (cx : D.Cx) → RootIsEvaluating (D.script cx) }
    ensures moves { (cx : D.Cx) → MoveGoesOn (D.script cx) }
{}

/// It ends with its promises: where the root is popped, and where its last run meets the limit.
pub fn evaluation_ends<D: Delegate>()
    ensures root { (cx : D.Cx) → LastFrameEnds (D.script cx) }
    ensures last_run { (cx : D.Cx) → LastRunEnds (D.script cx) }
{}

/// It keeps the bound and the price where it stops with a fault, also that of a start that failed.
pub fn evaluation_stops<D: Delegate>()
    ensures fault { (cx : D.Cx) → EvaluationStops (D.script cx) }
    ensures failed_start { (cx : D.Cx) → FailedStartStops (D.script cx) }
{}

/// Where the root's rank fits its depth, no move meets a limit, a cycle or a fault.
pub fn fitting_meets_no_limit<D: Delegate>()
    ensures { (cx : D.Cx) → FittingMeetsNoLimit (D.script cx) }
{}

/// Where the root is one of some goals that no question leads out of, and the depth is enough for them, no move
/// refuses a question or meets overflow.
pub fn enclosed_refuses_none<D: Delegate>()
    ensures { (cx : D.Cx) → EnclosedRefusesNone (D.script cx) }
{}
