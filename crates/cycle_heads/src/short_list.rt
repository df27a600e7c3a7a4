//! A list that takes no memory of its own while it has one element at most.
ghost use Rattle.std.specs.Prelude.{◌≡◌, ◌≤◌, ◌<◌, ◌++◌, ◌∷◌, [], drop, length, option_to_list, slice_set, take, IsSome, None, OnErr, OnOk};
ghost use Rattle.std.specs.Mem.{FitsInMemory};

use heap_room::list_bytes;
use path_kinds::memory::NoMemory;
use std::alloc::Global;
use std::marker::Model;
use std::slice;

/// So many more elements a list has room for at least once one does not suffice.
const A_FEW: usize = 7;

/// A list that has one element at most in most cases. That one lies within it; more stand in one piece of memory.
#[derive(Drop)]
pub(crate) struct ShortList<T: Copy> {
    /// The only element, as long as none stands in memory.
    only: Option<T>,
    more: Vec<T>,
}

impl<T: Copy> Model for ShortList<T> {
    ghost use Rattle.std.specs.Prelude.{◌≡◌, ◌++◌, List, [], option_to_list, IsSome};

    ghost Value = { List T };

    ghost view = { λ s. option_to_list s.only ++ s.more.items };

    ghost invariant = { λ s. IsSome s.only → s.more.items ≡ [] };
}

impl<T: Copy> ShortList<T> {
    /// No elements.
    pub(crate) fn new(alloc: Global) -> ShortList<T>
        ensures { result ≡ [] }
    {
        ShortList {
            only: None,
            more: Vec::new(alloc),
        }
    }

    /// The elements.
    pub(crate) fn as_slice(&self) -> &[T]
        requires { FitsInMemory T.row }
        ensures { result.now ≡ self.now }
    {
        match &self.only {
            Some(only) => slice::from_ref(only),
            None => self.more.as_slice(),
        }
    }

    /// Makes another one of the element at this place.
    pub(crate) fn set(&mut self, index: usize, value: T)
        requires { index < length self.old }
        ensures { self.new ≡ slice_set self.old index value }
    {
        match &mut self.only {
            Some(only) => *only = value,
            None => self.more[index] = value,
        }
    }

    /// Puts in one more element at this place. A refusal changes nothing.
    pub(crate) fn insert(&mut self, index: usize, value: T) -> Result<(), NoMemory>
        requires { index ≤ length self.old }
        ensures ok { OnOk result (self.new ≡ take index self.old ++ value ∷ drop index self.old) }
        ensures err { OnErr result (self.new ≡ self.old) }
    {
        if self.only.is_none() && self.more.is_empty() {
            self.only = Some(value);
            return Ok(());
        }
        move_out(&mut self.only, &mut self.more)?;
        if index == self.more.len() {
            self.more.push(value)?;
        } else {
            self.more.insert(index, value)?;
        }
        Ok(())
    }

    /// Takes out the last element.
    pub(crate) fn pop(&mut self) -> Option<T>
        ensures taken { self.old ≡ self.new ++ option_to_list result }
        ensures some { 0 < length self.old → IsSome result }
    {
        match self.only.take() {
            Some(only) => Some(only),
            None => self.more.pop(),
        }
    }

    /// Takes out all elements, and keeps the memory.
    pub(crate) fn clear(&mut self)
        ensures { self.new ≡ [] }
    {
        self.only = None;
        self.more.clear();
    }

    /// How many bytes of the heap it holds.
    pub(crate) fn held_bytes(&self) -> usize {
        list_bytes(&self.more)
    }

    /// Makes room for so many elements in all. A refusal changes nothing, either.
    pub(crate) fn make_room(&mut self, count: usize) -> Result<(), NoMemory>
        ensures { self.new ≡ self.old }
    {
        if count > 1 {
            move_out(&mut self.only, &mut self.more)?;
            if let Some(lacks @ 1..) = count.checked_sub(self.more.len()) {
                self.more.reserve(lacks)?;
            }
        }
        Ok(())
    }
}

/// Moves the only element to where more of them stand. A refusal changes nothing.
fn move_out<T: Copy>(only: &mut Option<T>, more: &mut Vec<T>) -> Result<(), NoMemory>
    ensures none { OnOk result (only.new ≡ None) }
    ensures moved { OnOk result (more.new.items ≡ more.old.items ++ option_to_list only.old) }
    ensures same { OnErr result ((only.new ≡ only.old) × (more.new.items ≡ more.old.items)) }
{
    if let Some(value) = *only {
        more.reserve(A_FEW)?;
        more.push_reserved(value);
        *only = None;
    }
    Ok(())
}
