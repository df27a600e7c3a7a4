//! The fields of a record.
ghost use Rattle.std.specs.Prelude.{◌≡◌, ◌++◌, ◌↔◌, ℕ, false, true, IfErr, IfOk, IsTrue, List, codes, map};
ghost use Rattle.std.specs.List.{list_any};
ghost use Rattle.std.specs.Str.{bytes_eq};
ghost use Rattle.type_texts.specs.Words.{AreFields, IsName, named, NamedField, words_left};

use crate::line::LineFault;
use crate::written::WrittenField;
use line_texts::{Words, is_name};
use std::alloc::Global;

/// The words after the opening brace: fields, each a name with a colon and a type, and the closing brace.
pub(super) fn fields_of<'a>(
    alloc: Global,
    words: Words<'a>,
) -> Result<Vec<WrittenField<'a>>, LineFault>
    ensures spelled { IfOk result
        (λ fields. AreFields (words_left words.entry) (map named fields.items)) }
    ensures malformed { result ≡ Err LineFault.Malformed → (fields : List NamedField) →
        AreFields (words_left words.entry) fields → ⊥ }
{
    let mut fields = Vec::new(alloc);
    // The field whose type is next.
    let mut due = None;
    let mut is_closed = false;
    for word in words {
        if is_closed {
            return Err(LineFault::Malformed);
        }
        match due {
            Some(name) => {
                fields.push(field_of(name, word)?)?;
                due = None;
            }
            None if is_brace(word) => is_closed = true,
            None => due = Some(field_name(fields.as_slice(), word)?),
        }
    }
    if is_closed {
        Ok(fields)
    } else {
        Err(LineFault::Malformed)
    }
}

fn is_brace(word: &[u8]) -> bool
    ensures { IsTrue result ↔ word.now ≡ codes "}" }
{
    word == b"}".as_slice()
}

// The field of this name, if the word names a type.
fn field_of<'a>(name: &'a [u8], word: &'a [u8]) -> Result<WrittenField<'a>, LineFault>
    ensures same { IfOk result
        (λ field. named field ≡ record { name = name.now; part = word.now }) }
    ensures is_name { IfOk result (λ field. IsName word.now) }
    ensures malformed { IfErr result (λ fault. IsName word.now → ⊥) }
{
    if is_name(word) {
        Ok(WrittenField { name, part: word })
    } else {
        Err(LineFault::Malformed)
    }
}

// The name that stands before a colon, if no earlier field has it.
fn field_name<'a>(fields: &[WrittenField<'a>], word: &'a [u8]) -> Result<&'a [u8], LineFault>
    ensures spelled { IfOk result (λ name. word.now ≡ name.now ++ codes ":") }
    ensures is_name { IfOk result (λ name. IsName name.now) }
    ensures is_new { IfOk result (λ name.
        list_any (λ field. bytes_eq field.name.now name.now) fields.now ≡ false) }
    ensures malformed { IfErr result
        (λ fault. (name : List ℕ) → word.now ≡ name ++ codes ":" → IsName name →
        list_any (λ field. bytes_eq field.name.now name) fields.now ≡ true) }
{
    match word {
        [name @ .., b':'] if is_name(name) && !has_field(fields, name) => Ok(name),
        _ => Err(LineFault::Malformed),
    }
}

// Whether one of the fields has this name.
fn has_field(fields: &[WrittenField<'_>], name: &[u8]) -> bool
    ensures { result ≡ list_any (λ field. bytes_eq field.name.now name.now) fields.now }
{
    fields.iter().any(|field| field.name == name)
}
