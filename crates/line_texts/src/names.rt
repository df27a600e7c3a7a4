//! Names and their numbers.
ghost use Rattle.std.specs.Prelude.{◌≡◌, ◌↔◌, ◌≤◌, ℕ, List, [], length, Some, IfOk, OnOk, OnErr, slice_get};
ghost use Rattle.std.specs.Option.{option_copied};
ghost use Rattle.line_texts.specs.Names.{with_name};

mod links;
mod name;

use crate::names::links::{find, link, linked};
use crate::names::name::{MOST, Name};
use std::alloc::{AllocError, Global};
use std::marker::Model;

/// Distinct names, each with a number: its place in the order in which they came.
#[derive(Drop)]
pub struct Names {
    alloc: Global,
    names: Vec<Name>,
    heads: usize,
    links: Vec<u32>,
}

impl Model for Names {
    ghost use Rattle.std.specs.Prelude.{ℕ, List, map};

    ghost Value = { List (List ℕ) };

    ghost use Rattle.line_texts.specs.Names.{text_of, AreFound};

    ghost view = { λ names. map text_of names.names.items };

    ghost invariant = { λ names. AreFound names.heads names.links.items names.names.items };
}

impl Names {
    /// No names. It takes no memory yet.
    pub fn new(alloc: Global) -> Names
        ensures { result ≡ [] }
    {
        Names {
            alloc,
            names: Vec::new(alloc),
            heads: 0,
            links: Vec::new(alloc),
        }
    }

    /// The name's number.
    #[inline(always)]
    pub fn number(&self, name: &[u8]) -> Option<usize>
        ensures { (n : ℕ) → (result ≡ Some n) ↔ (slice_get self.now n ≡ Some name.now) }
    {
        let names = &self.names;
        if name.len() > MOST {
            return None;
        }
        let wanted = Name::new(name);
        find(names.as_slice(), self.heads, self.links.as_slice(), &wanted)
    }

    /// How many names there are.
    pub fn count(&self) -> usize
        ensures { result ≡ length self.now }
    {
        self.names.len()
    }

    /// The name of this number.
    pub fn text(&self, number: usize) -> Option<&[u8]>
        ensures { option_copied result ≡ slice_get self.now number }
    {
        self.names.get(number).map(|name| name.text())
    }

    /// The name's number, which is the next one where the name is new. A failure changes nothing.
    pub fn intern(&mut self, name: &[u8]) -> Result<usize, AllocError>
        requires { length name.now ≤ 16 }
        ensures number { IfOk result (λ number. slice_get self.new number ≡ Some name.now) }
        ensures names { OnOk result (self.new ≡ with_name self.old name.now) }
        ensures err { OnErr result (self.new ≡ self.old) }
    {
        let name = Name::new(name);
        let known = find(
            self.names.as_slice(),
            self.heads,
            self.links.as_slice(),
            &name,
        );
        if let Some(number) = known {
            return Ok(number);
        }
        let number = self.names.len();
        self.names.reserve(1)?;
        if number == self.heads {
            let heads = number.saturating_mul(2).max(8);
            self.links = linked(self.alloc, self.names.as_slice(), heads)?;
            self.heads = heads;
        }
        link(&mut self.links, self.heads, name.letters(), number);
        self.names.push_reserved(name);
        Ok(number)
    }
}
