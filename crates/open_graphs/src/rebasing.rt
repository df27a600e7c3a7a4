//! The rule by which provisional entries outlive their highest head.
ghost use Rattle.open_graphs.specs.Words.{RebasedIsAfterPop, RebasedKeepsStored};

/// Each entry with a verdict that the rule leaves is one that stays true after the pop, so it may still
/// be used.
pub fn rebasing_keeps_stored()
    ensures after_pop { RebasedIsAfterPop }
    ensures stored { RebasedKeepsStored }
{}
