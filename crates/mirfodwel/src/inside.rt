//! What a handle stands for.

use crate::lent::Lent;
use sessions::Session;

/// A session over the caller's rows.
#[derive(Drop)]
pub struct Inside {
    pub session: Session<Lent>,
}

impl Inside {
    ghost use Rattle.std.specs.Prelude.{◌<◌, ◌↔◌, IsTrue};
    ghost use Rattle.mirfodwel.specs.Rows.{goals_in};

    /// Whether there is a goal of this number.
    pub(crate) fn has_goal(&self, goal: u32) -> bool
        ensures { IsTrue result ↔ goal < goals_in self.now }
    {
        (goal as usize) < self.session.lender().goals.len()
    }
}
