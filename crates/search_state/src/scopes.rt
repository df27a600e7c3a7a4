//! The scopes that are held while stored results are validated.
ghost use Rattle.std.specs.Prelude.{◌≡◌, ◌↔◌, ◌∷◌, ◌<◌, [], length, IsTrue, OnOk, OnErr};
ghost use Rattle.search_state.specs.Scopes.{held_over};

use heap_room::list_bytes;
use search_context::context::NoMemory;
use std::alloc::Global;
use std::marker::Model;

/// The scopes that are held, each until its goal is done. Goals are done the newest first, so the scope that was held last
/// is dropped first. Clauses see them with the newest first.
#[derive(Drop)]
pub struct HeldScopes<S: Drop> {
    scopes: Vec<S>,
}

impl<S: Drop> Model for HeldScopes<S> {
    ghost use Rattle.std.specs.Prelude.{List, reverse};

    ghost Value = { List S };

    ghost view = { λ held. reverse held.scopes.items };
}

impl<S: Drop> HeldScopes<S> {
    /// None. It takes no memory yet.
    pub(crate) fn new(alloc: Global) -> HeldScopes<S>
        ensures { result ≡ [] }
    {
        HeldScopes {
            scopes: Vec::new(alloc),
        }
    }

    /// Whether none is held.
    pub(crate) fn is_empty(&self) -> bool
        ensures { IsTrue result ↔ (self.now ≡ []) }
    {
        self.scopes.is_empty()
    }

    /// How many bytes of the heap the list has room in, without what the scopes hold.
    pub(crate) fn room_bytes(&self) -> usize {
        list_bytes(&self.scopes)
    }

    /// Holds the scope, if there is one. Where that is refused, it is dropped at once.
    pub fn hold(&mut self, scope: Option<S>) -> Result<(), NoMemory>
        ensures held { OnOk result (self.new ≡ held_over scope self.old) }
        ensures refused { OnErr result (self.new ≡ self.old) }
    {
        if let Some(scope) = scope {
            self.scopes.push(scope)?;
        }
        Ok(())
    }

    /// Hands out the scope that was held last.
    pub fn release(&mut self) -> S
        requires { 0 < length self.old }
        ensures { self.old ≡ result ∷ self.new }
    {
        self.scopes.pop().unwrap()
    }
}
