//! What the finished candidates of a run used.
ghost use Rattle.std.specs.Prelude.{◌≡◌, ◌<◌, ◌++◌, ◌∷◌, [], length, slice_set, slice_get, OnOk, Some};

use cycle_heads::candidates::CandidateHeadUsages;
use heap_room::list_bytes;
use search_context::context::NoMemory;
use std::alloc::Global;
use std::marker::Model;
use std::mem;

/// What each finished candidate of a run used of the goals on the stack, by the candidate's number. Nothing is
/// recorded of one that is ignored.
#[derive(Drop)]
pub struct FinishedCandidates {
    usages: Vec<CandidateHeadUsages>,
}

impl Model for FinishedCandidates {
    ghost use Rattle.std.specs.Prelude.{List};
    ghost use Rattle.run_records.specs.Below.{UsagesByHead};

    ghost Value = { List UsagesByHead };

    ghost view = { λ c. c.usages.items };
}

impl FinishedCandidates {
    /// No candidate is finished.
    pub fn new(alloc: Global) -> FinishedCandidates
        ensures { result ≡ [] }
    {
        FinishedCandidates {
            usages: Vec::new(alloc),
        }
    }

    /// Adds what the next candidate used.
    pub fn push(&mut self, candidate: CandidateHeadUsages) -> Result<(), NoMemory>
        ensures { OnOk result (self.new ≡ self.old ++ candidate ∷ []) }
    {
        self.usages.push(candidate)?;
        Ok(())
    }

    /// Takes what the candidate of this number used, so that nothing is recorded of it any more.
    pub fn take(&mut self, number: usize) -> CandidateHeadUsages
        requires there { number < length self.old }
        ensures taken { slice_get self.old number ≡ Some result }
        ensures left { self.new ≡ slice_set self.old number [] }
    {
        let nothing = CandidateHeadUsages::new(*self.usages.allocator());
        mem::replace(&mut self.usages[number], nothing)
    }

    /// Whether a list was made for them.
    pub(crate) fn has_room(&self) -> bool {
        self.usages.capacity() > 0
    }

    /// Takes the memory of other candidates, if there are none.
    pub(crate) fn take_room(&mut self, mut other: FinishedCandidates)
        ensures { self.new ≡ self.old }
    {
        if self.usages.is_empty() {
            other.usages.clear();
            self.usages = other.usages;
        }
    }

    /// How many there are.
    pub(crate) fn len(&self) -> usize {
        self.usages.len()
    }

    /// How many bytes of the heap the list has room in, without what its candidates hold.
    pub(crate) fn room_bytes(&self) -> usize {
        list_bytes(&self.usages)
    }

    /// Takes out what the last one used.
    pub(crate) fn pop(&mut self) -> Option<CandidateHeadUsages> {
        self.usages.pop()
    }

    /// Forgets all of them, and keeps the memory of the list.
    pub fn clear(&mut self)
        ensures { self.new ≡ [] }
    {
        self.usages.clear();
    }
}
