//! The address of a value on the heap, beside what it takes to make it a box again. A caller in another language can hold an
//! address, and cannot hold a box.
#![tactic(auto)]

ghost use Rattle.std.specs.Prelude.{◌≡◌};
ghost use Rattle.std_alloc.specs.Box.Ownership.{box_owns};

use std::alloc::Allocator;
use std::marker::Model;

/// What a box consists of: where its value lies, and the allocator that can free that block. Whoever has these owns the
/// value as its box did. Dropping them would lose it, so they have no `Drop`.
pub struct Unboxed<T, A: Allocator> {
    pub address: *mut T,
    pub alloc: A,
    pub ghost value: { T },
}

impl<T, A: Allocator> Model for Unboxed<T, A> {
    ghost also_owns = { λ parts. box_owns (A.dealloc_token parts.alloc) T.row parts.address parts.value };
}

impl<T: Drop, A: Allocator> Unboxed<T, A> {
    /// The parts of a box, whose value stays where it is.
    pub fn from_box(boxed: Box<T, A>) -> Unboxed<T, A>
        ensures { result.value ≡ boxed.value }
    {
        let (address, alloc) = Box::into_raw_with_allocator(boxed);
        Unboxed { address, alloc }
    }

    /// The box that has these parts.
    pub fn into_box(self) -> Box<T, A>
        ensures { result.value ≡ self.value }
    {
        let Unboxed { address, alloc } = self;
        unsafe { Box::from_raw(alloc, address) }
    }
}
