//! A session goes over to rows that changed.
ghost use Rattle.std.specs.Prelude.{◌≡◌, OnErr, OnOk};
ghost use Rattle.sessions.specs.Changed.{HasChanged};

use crate::session::Session;
use candidate_lists::{AnyOf, ContextOf};
use rule_arrays::{LendsArrays, RulesIn, concerned};
use search_parts::context::NoMemory;

impl<L: LendsArrays> Session<L> {
    /// Goes over to these rows, and keeps what is known of goals that this does not concern: those whose candidates are what they
    /// were, as are those of all goals that they can reach by questions. Their results and nodes stay, under the same numbers;
    /// those of all other goals are let go. The rows so far have to be there still, as they were; then they are let go.
    ///
    /// The time is linear in both tables (`rule_arrays::concerned` says in what) and in what is known. `NoMemory` where a growth
    /// was refused: the session goes on over its rows so far, with all that it knew.
    pub fn change(&mut self, lender: L) -> Result<(), NoMemory>
        ensures changed { OnOk result (HasChanged L.table_of ⟦<u32 as PartialEq>⟧.eq (L.table_of lender)
            self.old self.new) }
        ensures refused { OnErr result (self.new ≡ self.old) }
    {
        let concerned = concerned(self.cache.allocator(), self.lender(), lender)?;
        let cx = ContextOf(AnyOf(RulesIn { lender }));
        self.cache.has_runs();
        self.cache.change(cx, &concerned);
        Ok(())
    }
}
