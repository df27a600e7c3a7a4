//! The words of a reason why a type is not below another: the way from the pair to one that fails by itself, and how that
//! fails.
ghost use Rattle.std.specs.Prelude.{◌≡◌, ◌++◌, ℕ, true, None, Some, OnOk, slice_get};
ghost use Rattle.std.specs.Option.{option_copied};
ghost use Rattle.type_order.specs.Fields.{has_all, part_of};
ghost use Rattle.type_order.specs.Rule.{NeedsAll, case_of, pairs_of};
ghost use Rattle.type_order.specs.Subtypes.{IsBelow, forms_of};
ghost use Rattle.type_texts.specs.Reasons.{Fails, IsStep, ReasonsShowIt, end_words, failure_words, missed_word, record_in, step_name, way_words};

use crate::table::TypeTable;
use search_context::context::NoMemory;
use type_order::{Case, Field, Form, Pair, Types, part_of};

/// A step from a pair to one of its parts.
#[derive(Clone, Copy)]
pub enum Step {
    /// To an alternative of the left type, which leaves no trace in the text.
    Alternative,
    /// To the arguments of two functions, which stand the other way round.
    Argument,
    /// To their results.
    Result,
    /// To the fields of this name of two records.
    Field(u32),
}

/// How a pair fails by itself.
#[derive(Clone, Copy)]
pub enum End {
    /// Its types have other forms.
    Apart,
    /// The right one is a union, and no alternative fits.
    NoAlternative,
    /// The left record lacks a field of the right one.
    Lacks(u32),
}

/// That a reason is one: where steps lead from a pair to one that fails as is told, the pair's left type is not below its
/// right one. This call does nothing when it runs; what it promises is a law, for a caller's proof.
pub fn reasons_show_it()
    ensures { ReasonsShowIt }
{}

/// Writes the steps: ` at tail.head: `, or `: ` where none has a name.
pub fn write_way(text: &mut Vec<u8>, table: &TypeTable, way: &[Step]) -> Result<(), NoMemory>
    ensures { OnOk result (text.new.items ≡ text.old.items ++ way_words table.now way.now) }
{
    let mut before: &[u8] = b" at ";
    for step in way {
        if let Some(name) = name_of(table, *step) {
            text.extend_from_slice(before)?;
            text.extend_from_slice(name)?;
            before = b".";
        }
    }
    text.extend_from_slice(b": ")?;
    Ok(())
}

// The name of a step; that to an alternative has none.
fn name_of(table: &TypeTable, step: Step) -> Option<&[u8]>
    ensures { option_copied result ≡ step_name table.now step }
{
    match step {
        Step::Alternative => None,
        Step::Argument => Some(b"argument".as_slice()),
        Step::Result => Some(b"result".as_slice()),
        Step::Field(name) => table.label(name),
    }
}

/// Writes how the pair fails: `Text is not below Int`, `Text fits no alternative of Shape` or `Point has no name`.
pub fn write_end(
    text: &mut Vec<u8>,
    table: &TypeTable,
    pair: Pair,
    end: End,
) -> Result<(), NoMemory>
    ensures { OnOk result (text.new.items ≡ text.old.items ++ end_words table.now pair end) }
{
    text.extend_from_slice(table.name(pair.left).unwrap_or(b""))?;
    text.extend_from_slice(failure_of(end))?;
    text.extend_from_slice(missed_in(table, pair, end))?;
    Ok(())
}

// How a pair fails.
fn failure_of(end: End) -> &'static [u8]
    ensures { result.now ≡ failure_words end }
{
    match end {
        End::Apart => b" is not below ",
        End::NoAlternative => b" fits no alternative of ",
        End::Lacks(_) => b" has no ",
    }
}

// The name of what it fails to fit, or lacks.
fn missed_in(table: &TypeTable, pair: Pair, end: End) -> &[u8]
    ensures { result.now ≡ missed_word table.now pair end }
{
    match end {
        End::Apart | End::NoAlternative => table.name(pair.right).unwrap_or(b""),
        End::Lacks(name) => table.label(name).unwrap_or(b""),
    }
}

/// How the pair, whose left type is not below the right one, fails by itself: whatever its parts are, or as its right type
/// is a union of which no alternative fits. Else all that is asked for the pair is needed, and so some of it fails.
pub fn end_of(types: &Types, pair: Pair) -> Option<End>
    ensures some { (end : End) → result ≡ Some end →
        (IsBelow (forms_of types.now) pair.left pair.right → ⊥) →
        Fails (forms_of types.now) end pair }
    ensures none { result ≡ None → NeedsAll (forms_of types.now) pair }
{
    match types.case(pair) {
        Case::Fails => match lack(types, pair) {
            Some(name) => Some(End::Lacks(name)),
            None => Some(End::Apart),
        },
        Case::SplitsRight => Some(End::NoAlternative),
        Case::Holds | Case::SplitsLeft | Case::BetweenFunctions | Case::BetweenRecords => None,
    }
}

// The first field of the right record that the left one lacks, where both types are records.
fn lack(types: &Types, pair: Pair) -> Option<u32>
    ensures some { (name : ℕ) → result ≡ Some name →
        Fails (forms_of types.now) (End.Lacks name) pair }
    ensures none { result ≡ None → case_of (forms_of types.now) pair ≡ Case.Fails →
        Fails (forms_of types.now) End.Apart pair }
{
    let fields = record(types, pair.left)?;
    let others = record(types, pair.right)?;
    first_lack(fields, others)
}

// The fields, if the type is a record.
fn record(types: &Types, number: usize) -> Option<&[Field]>
    ensures { option_copied result ≡ record_in (slice_get (forms_of types.now) number) }
{
    match types.form(number) {
        Some(Form::Record(fields)) => Some(fields.as_slice()),
        _ => None,
    }
}

// The first of the other fields that is none of these.
fn first_lack(fields: &[Field], others: &[Field]) -> Option<u32>
    ensures some { (name : ℕ) → result ≡ Some name →
        (part_of fields.now name ≡ None) × (y : ℕ) × (part_of others.now name ≡ Some y) }
    ensures none { result ≡ None → has_all fields.now others.now ≡ true }
{
    for other in others {
        if part_of(fields, other.name).is_none() {
            return Some(other.name);
        }
    }
    None
}

/// The step from the pair to the one that is asked for it at this place, where all that is asked is needed.
pub fn step_at(types: &Types, pair: Pair, place: usize) -> Step
    ensures { (part : Pair) → NeedsAll (forms_of types.now) pair →
        slice_get (pairs_of (forms_of types.now) pair) place ≡ Some part →
        IsStep (forms_of types.now) result pair part }
{
    match types.case(pair) {
        Case::BetweenFunctions if place == 0 => Step::Argument,
        Case::BetweenFunctions => Step::Result,
        Case::BetweenRecords => Step::Field(name_at(types.fields(pair.right), place)),
        _ => Step::Alternative,
    }
}

// The name of the field at this place.
fn name_at(fields: &[Field], place: usize) -> u32
    ensures { (field : Field) → slice_get fields.now place ≡ Some field → result ≡ field.name }
{
    match fields.get(place) {
        Some(field) => field.name,
        None => 0,
    }
}
