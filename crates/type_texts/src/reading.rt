//! Reading a text.
ghost use Rattle.std.specs.Prelude.{◌≡◌, ◌<◌, ℕ, All, length, IfOk, IfErr, map};
ghost use Rattle.std.specs.List.{AllZip};
ghost use Rattle.std.specs.Option.{option_copied};
ghost use Rattle.type_texts.specs.Words.{AreDistinct, declared_by, DeclaresType, HasShortWords, IsDeclaredTwice, IsFirstBadLine, IsTableOf, IsUndeclared, IsUnguarded, lines_of, name_in, names_of, Reads, Says, statement_of};
ghost use Rattle.type_texts.specs.Faults.{IsOfLines, IsOfNames, IsOfTable};

use crate::entering::EntryFault;
use crate::guard::unguarded_union;
use crate::line::{Line, LineFault, line_of};
use crate::table::TypeTable;
use line_texts::Names;
use search_context::context::NoMemory;
use std::alloc::{AllocError, AllocFailed, Global};
use thiserror::Error;

/// Why a text was not read. Lines are counted from 1.
#[derive(Clone, Copy, Debug, PartialEq, Eq, Error)]
pub enum ReadFault {
    /// The first malformed line.
    #[error("line {0}: bad line")]
    BadLine(usize),
    /// The first line that declares a name which an earlier line declares.
    #[error("line {0}: declared twice")]
    Twice(usize),
    /// The first line that names a type which no line declares.
    #[error("line {0}: not declared")]
    Undeclared(usize),
    /// The first line that declares a union which is one of itself through unions alone.
    #[error("line {0}: a union of itself")]
    Unguarded(usize),
    /// The table could not grow.
    #[error("out of memory")]
    Memory,
}

impl From<AllocError> for ReadFault {
    ghost use Rattle.type_texts.specs.declared.reading.ReadFault.TheVariants.{Memory};

    ghost from_gives = { λ _ fault. fault ≡ Memory };

    fn from(_error: AllocError) -> ReadFault {
        ReadFault::Memory
    }
}

impl From<NoMemory> for ReadFault {
    ghost use Rattle.type_texts.specs.declared.reading.ReadFault.TheVariants.{Memory};

    ghost from_gives = { λ _ fault. fault ≡ Memory };

    fn from(_error: NoMemory) -> ReadFault {
        ReadFault::Memory
    }
}

impl<T: Drop> From<AllocFailed<T>> for ReadFault {
    ghost use Rattle.type_texts.specs.declared.reading.ReadFault.TheVariants.{Memory};

    ghost from_gives = { λ _ fault. fault ≡ Memory };

    fn from(_error: AllocFailed<T>) -> ReadFault {
        ReadFault::Memory
    }
}

impl TypeTable {
    /// Reads declarations and questions, one a line:
    ///
    /// - `type NAME = base WORD` is a base type, which is below itself alone;
    /// - `type NAME = top` and `type NAME = bottom` are the types above and below all;
    /// - `type NAME = NAME -> NAME` is a function, from its argument to its result;
    /// - `type NAME = { FIELD: NAME FIELD: NAME }` is a record, with fields in any order, and none twice;
    /// - `type NAME = NAME | NAME ..` is a union of two types or more;
    /// - `ask NAME < NAME` asks whether the left type is below the right one.
    ///
    /// Words are parted by one or more spaces. Names, words and fields are 1 to 16 ASCII letters, digits and `_`. A type
    /// may be named before its declaration. A line without words, and one whose first word begins with `#`, is passed
    /// over. Newlines end the lines, and the last one may lack it.
    ///
    /// Faults are sought in this order, each in the whole text: `BadLine` for a line of another form, `Twice` for a name
    /// that is declared twice, `Undeclared` for one that is not declared, and `Unguarded` for a union of itself.
    /// `Memory` where memory runs out before.
    pub fn read(alloc: Global, text: &[u8]) -> Result<TypeTable, ReadFault>
        ensures read { IfOk result (Reads text.now) }
        ensures bad_line { (n : ℕ) → result ≡ Err (ReadFault.BadLine n) →
            IsFirstBadLine text.now n }
        ensures twice { (n : ℕ) → result ≡ Err (ReadFault.Twice n) → IsDeclaredTwice text.now n }
        ensures undeclared { (n : ℕ) → result ≡ Err (ReadFault.Undeclared n) →
            IsUndeclared text.now n }
        ensures unguarded { (n : ℕ) → result ≡ Err (ReadFault.Unguarded n) →
            IsUnguarded text.now n }
    {
        let lines = lines_in(alloc, text)?;
        let names = names_in(alloc, lines.as_slice())?;
        let table = table_of(alloc, names, lines.as_slice())?;
        match unguarded_union(alloc, &table.types, table.count())? {
            Some(number) => Err(ReadFault::Unguarded(line_declaring(lines.as_slice(), number))),
            None => Ok(table),
        }
    }
}

// What the lines say.
fn lines_in<'a>(alloc: Global, text: &'a [u8]) -> Result<Vec<Line<'a>>, ReadFault>
    ensures lines { IfOk result
        (λ lines. AllZip Says (lines_of text.now) (map statement_of lines.items)) }
    ensures fault { IfErr result (λ fault. IsOfLines text.now fault) }
{
    let mut lines = Vec::new(alloc);
    for (before, line) in text.split(|byte| *byte == b'\n').enumerate() {
        match line_of(alloc, line) {
            Ok(said) => lines.push(said)?,
            Err(LineFault::Malformed) => return Err(ReadFault::BadLine(before + 1)),
            Err(LineFault::Memory) => return Err(ReadFault::Memory),
        }
    }
    Ok(lines)
}

// The names that are declared, in order.
fn names_in(alloc: Global, lines: &[Line<'_>]) -> Result<Names, ReadFault>
    requires { All HasShortWords (map statement_of lines.now) }
    ensures names { IfOk result (λ names. names ≡ declared_by (map statement_of lines.now)) }
    ensures distinct { IfOk result (λ names. AreDistinct names) }
    ensures fault { IfErr result (λ fault. IsOfNames (map statement_of lines.now) fault) }
{
    let mut names = Names::new(alloc);
    for (before, line) in lines.iter().enumerate() {
        if let Some(name) = declared_name(line) {
            if names.number(name).is_some() {
                return Err(ReadFault::Twice(before + 1));
            }
            names.intern(name)?;
        }
    }
    Ok(names)
}

// The name that the line declares.
fn declared_name<'a>(line: &Line<'a>) -> Option<&'a [u8]>
    ensures { option_copied result ≡ name_in (statement_of line.now) }
{
    match line {
        Line::Type { name, written: _ } => Some(*name),
        Line::PassedOver | Line::Ask { .. } => None,
    }
}

// The table of what the lines say.
fn table_of(alloc: Global, names: Names, lines: &[Line<'_>]) -> Result<TypeTable, ReadFault>
    requires { All HasShortWords (map statement_of lines.now) }
    ensures names { IfOk result (λ table. names_of table ≡ names) }
    ensures table { IfOk result (λ table. IsTableOf (map statement_of lines.now) table) }
    ensures fault { IfErr result (λ fault. IsOfTable names (map statement_of lines.now) fault) }
{
    let mut table = TypeTable::new(alloc, names);
    for (before, line) in lines.iter().enumerate() {
        match table.enter(alloc, line) {
            Ok(()) => {}
            Err(EntryFault::Undeclared) => return Err(ReadFault::Undeclared(before + 1)),
            Err(EntryFault::Memory) => return Err(ReadFault::Memory),
        }
    }
    Ok(table)
}

// The number of the line that declares the type of this number.
fn line_declaring(lines: &[Line<'_>], number: usize) -> usize
    requires { number < length (declared_by (map statement_of lines.now)) }
    ensures { DeclaresType (map statement_of lines.now) number result }
{
    let mut declared = 0;
    for (before, line) in lines.iter().enumerate() {
        if let Line::Type { .. } = line {
            if declared == number {
                return before + 1;
            }
            declared += 1;
        }
    }
    lines.len()
}
