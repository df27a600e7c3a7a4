//! Values that each have one number.
ghost use Rattle.std.specs.Prelude.{◌≡◌, true, [], length, IfOk, IfSome, OnErr, slice_get, ◌↔◌, ℕ, Some};
ghost use Rattle.std.specs.Option.{option_copied};
ghost use Rattle.trait_rules.specs.Numbered.{Grows, Keeps};

use path_kinds::memory::NoMemory;
use std::alloc::Global;
use std::collections::HashMap;
use std::hash::Hash;
use std::marker::Model;

/// What may have a number: `==` is equality, as `search rules` shows where it is derived.
pub trait Key: Eq + Hash + Copy + Drop {
    ghost use Rattle.std.specs.Prelude.{◌≡◌, true};

    /// Values of one row mostly come together, in the order of their columns: so they are found by one of them, without a hash. A
    /// row that is very great has no such values.
    fn row(&self) -> usize {
        usize::MAX
    }

    /// The place in the row.
    fn column(&self) -> usize {
        0
    }

    ghost same_key: { (x y : Self) → Self.eq x y ≡ true → x ≡ y };
}

/// Rows of greater numbers are not noted.
const MOST: usize = 1 << 24;

/// Distinct values, each with a number: its place in the order in which they came.
#[derive(Drop)]
pub struct Numbered<K: Key> {
    keys: Vec<K>,
    numbers: HashMap<K, usize>,
    // By row the number of the value in it that was looked up last.
    rows: Vec<usize>,
}

impl<K: Key> Model for Numbered<K> {
    ghost use Rattle.std.specs.Prelude.{List};
    ghost use Rattle.std.specs.HashMap as hash;
    ghost use Rattle.trait_rules.specs.Numbered.{AreNumbered};

    ghost Value = { List K };

    ghost view = { λ s. s.keys.items };

    ghost invariant = { λ s. AreNumbered (hash.get K.eq s.numbers) s.keys.items };
}

impl<K: Key> Numbered<K> {
    ghost use Rattle.trait_rules.specs.Numbered.{IsOnce};

    /// No values. It takes no memory yet.
    pub fn new(alloc: Global) -> Numbered<K>
        ensures { result ≡ [] }
    {
        Numbered {
            keys: Vec::new(alloc),
            numbers: HashMap::new(alloc),
            rows: Vec::new(alloc),
        }
    }

    /// How many values there are.
    pub fn len(&self) -> usize
        ensures len { result ≡ length self.now }
        ensures once { IsOnce self.now }
    {
        self.keys.len()
    }

    /// The value of this number.
    pub fn get(&self, number: usize) -> Option<K>
        ensures value { result ≡ slice_get self.now number }
        ensures once { IsOnce self.now }
    {
        self.keys.get(number).copied()
    }

    /// The value's number, if it has one.
    pub fn number(&self, key: K) -> Option<usize>
        ensures { (n : ℕ) → (result ≡ Some n) ↔ (slice_get self.now n ≡ Some key) }
    {
        self.numbers.get(&key).copied()
    }

    /// Makes room for so many values more.
    pub fn reserve(&mut self, more: usize) -> Result<(), NoMemory>
        ensures { self.new ≡ self.old }
    {
        self.keys.reserve(more)?;
        self.numbers.reserve(more)?;
        Ok(())
    }

    // Whether the value has this number.
    fn is_at(&self, key: K, number: usize) -> bool
        ensures { result ≡ true → slice_get self.now number ≡ Some key }
    {
        match self.get(number) {
            Some(found) => found == key,
            None => false,
        }
    }

    // The value's number, if the value stands in its row where the one that is noted says.
    fn guess(&self, key: K) -> Option<usize>
        ensures { IfSome result (λ number. slice_get self.now number ≡ Some key) }
    {
        let noted = self.rows.get(key.row()).copied()?;
        let other = self.keys.get(noted).copied()?;
        let number = noted.wrapping_add(key.column().wrapping_sub(other.column()));
        if self.is_at(key, number) {
            Some(number)
        } else {
            None
        }
    }

    /// The value's number, which is the next one where the value is new. A failure changes nothing.
    pub fn intern(&mut self, key: K) -> Result<usize, NoMemory>
        ensures number { IfOk result (λ number. slice_get self.new number ≡ Some key) }
        ensures keeps { Keeps self.old self.new }
        ensures grows { Grows self.old self.new key }
        ensures err { OnErr result (self.new ≡ self.old) }
    {
        if let Some(number) = self.guess(key) {
            return Ok(number);
        }
        make_row(&mut self.rows, key.row())?;
        let number = self.look_up(key)?;
        if let Some(noted) = self.rows.get_mut(key.row()) {
            *noted = number;
        }
        Ok(number)
    }

    // The same, by the value's hash.
    fn look_up(&mut self, key: K) -> Result<usize, NoMemory>
        ensures number { IfOk result (λ number. slice_get self.new number ≡ Some key) }
        ensures keeps { Keeps self.old self.new }
        ensures grows { Grows self.old self.new key }
        ensures err { OnErr result (self.new ≡ self.old) }
    {
        if let Some(number) = self.number(key) {
            return Ok(number);
        }
        let number = self.keys.len();
        self.keys.reserve(1)?;
        self.numbers.insert(key, number)?;
        self.keys.push_reserved(key);
        Ok(number)
    }
}

// Makes room for a row, unless it is very great.
fn make_row(rows: &mut Vec<usize>, row: usize) -> Result<(), NoMemory> {
    if row >= MOST {
        return Ok(());
    }
    for _ in rows.len()..row + 1 {
        rows.push(usize::MAX)?;
    }
    Ok(())
}
