//! Handles, which the caller holds.
ghost use Rattle.std.specs.Prelude.{◌≡◌, ◌↔◌, IfNone, IfSome, IsSome, IsTrue, None, Some};

use crate::address::Address;
use crate::inside::Inside;
use std::alloc::Global;
use std::mem::replace;
use unboxed::Unboxed;

/// A session as the caller holds it: whether it is open, and where it lies. It is all zero before it is opened and
/// after it is closed.
#[repr(C)]
#[derive(Drop)]
pub struct Handle {
    pub(crate) is_open: bool,
    pub(crate) address: Address,
    pub ghost open_if_held: { IsTrue is_open ↔ IsSome address.inside },
}

impl Handle {
    /// A handle that is closed.
    pub(crate) fn closed() -> Handle
        ensures { result.address.inside ≡ None }
    {
        Handle {
            is_open: false,
            address: Address::none(),
        }
    }

    /// A handle that is open.
    pub(crate) fn of(inside: Box<Inside>) -> Handle
        ensures { result.address.inside ≡ Some inside.value }
    {
        Handle {
            is_open: true,
            address: Address::of(Unboxed::from_box(inside)),
        }
    }

    /// What it holds; then it is closed. `None` where it was closed before.
    pub(crate) fn take(&mut self, alloc: Global) -> Option<Box<Inside>>
        ensures closed { self.new.address.inside ≡ None }
        ensures some { IfSome result (λ taken. self.old.address.inside ≡ Some taken.value) }
        ensures none { IfNone result (self.old.address.inside ≡ None) }
    {
        let Handle { is_open, address } = replace(self, Handle::closed());
        if is_open {
            Some(address.into_parts(alloc).into_box())
        } else {
            None
        }
    }
}
