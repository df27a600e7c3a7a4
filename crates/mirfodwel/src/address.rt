//! Where what a handle stands for lies.
ghost use Rattle.std.specs.Prelude.{◌≡◌, Option, IsSome, None, Some};
ghost use Rattle.mirfodwel.specs.Held.{held};
ghost use Rattle.mirfodwel.specs.declared.inside.Inside.{Inside};

use crate::inside::Inside;
use std::alloc::Global;
use std::marker::Model;
use std::ptr;
use unboxed::Unboxed;

/// The address of what is held, or nothing. It owns what is there.
#[repr(C)]
#[derive(Drop)]
pub struct Address {
    at: *mut u8,
    pub ghost inside: { Option Inside },
}

impl Model for Address {
    ghost also_owns = { λ address. held address.inside address.at };
}

impl Address {
    /// Holds nothing.
    pub(crate) fn none() -> Address
        ensures { result.inside ≡ None }
    {
        Address {
            at: ptr::null_mut(),
        }
    }

    /// Holds what is handed over. A `Global` takes no bytes, so the address is all that there is to keep.
    pub(crate) fn of(parts: Unboxed<Inside, Global>) -> Address
        ensures { result.inside ≡ Some parts.value }
    {
        let Unboxed { address, alloc: _ } = parts;
        Address { at: address.cast() }
    }

    /// Hands over what it holds.
    pub(crate) fn into_parts(self, alloc: Global) -> Unboxed<Inside, Global>
        requires { IsSome self.inside }
        ensures { Some result.value ≡ self.inside }
    {
        let Address { at } = self;
        Unboxed {
            address: at.cast(),
            alloc,
        }
    }
}
