//! Types as numbers.
ghost use Rattle.std.specs.Prelude.{◌≡◌, ◌<◌, [], length, IfOk, IfSome, OnOk, OnErr, slice_get, ℕ, Some, Ok};
ghost use Rattle.trait_rules.specs.Numbered.{IsOnce, Keeps};
ghost use Rattle.trait_rules.specs.Terms.{ArePartsFirst, Stands, Term, constructor_of};

use crate::made::Made;
use crate::numbered::Numbered;
use path_kinds::memory::NoMemory;
use std::alloc::Global;
use std::marker::Model;

/// Types, each with one number. The parts of a type come before it.
#[derive(Drop)]
pub struct Terms {
    made: Numbered<Made>,
}

impl Model for Terms {
    ghost use Rattle.std.specs.Prelude.{List};
    ghost use Rattle.trait_rules.specs.declared.made.Made.{Made};
    ghost use Rattle.trait_rules.specs.Terms.{ArePartsFirst};

    ghost Value = { List Made };

    ghost view = { λ s. s.made };

    ghost invariant = { λ s. ArePartsFirst s.made };
}

impl Terms {
    ghost use Rattle.trait_rules.specs.declared.made.Made.TheVariants.{Constructor, Applied};

    /// No types. It takes no memory yet.
    pub fn new(alloc: Global) -> Terms
        ensures { result ≡ [] }
    {
        Terms {
            made: Numbered::new(alloc),
        }
    }

    /// How many types there are.
    pub fn len(&self) -> usize
        ensures len { result ≡ length self.now }
        ensures once { IsOnce self.now }
        ensures first { ArePartsFirst self.now }
    {
        self.made.len()
    }

    /// How the type of this number is made.
    pub fn get(&self, number: usize) -> Option<Made>
        ensures value { result ≡ slice_get self.now number }
        ensures once { IsOnce self.now }
        ensures first { ArePartsFirst self.now }
    {
        self.made.get(number)
    }

    /// The number of a constructor without arguments.
    pub fn constructor(&mut self, constructor: usize) -> Result<usize, NoMemory>
        ensures number { IfOk result (λ number.
            slice_get self.new number ≡ Some (Constructor constructor)) }
        ensures keeps { Keeps self.old self.new }
    {
        let number = self.made.intern(Made::Constructor(constructor))?;
        Ok(number)
    }

    /// The number of a type with one argument more. There is none where one of the numbers is no type's.
    pub fn applied(&mut self, applied: usize, argument: usize) -> Result<Option<usize>, NoMemory>
        ensures number { IfOk result (λ o. IfSome o (λ number.
            slice_get self.new number ≡ Some (Applied applied argument))) }
        ensures keeps { Keeps self.old self.new }
    {
        let count = self.made.len();
        if applied >= count || argument >= count {
            return Ok(None);
        }
        let number = self.made.intern(Made::Applied(applied, argument))?;
        Ok(Some(number))
    }

    /// The outermost constructor of a type.
    pub fn outermost(&self, number: usize) -> Option<usize>
        ensures { (term : Term) → Stands self.now number term → result ≡ Some (constructor_of term) }
    {
        let mut at = number;
        loop {
            match self.made.get(at)? {
                Made::Constructor(constructor) => return Some(constructor),
                Made::Applied(applied, _) => at = applied,
            }
        }
    }
}
