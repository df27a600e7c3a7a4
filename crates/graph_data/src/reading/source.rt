//! The tokens of a text, each of which has to be the wanted one.

ghost use Rattle.std.specs.Prelude.{◌≡◌, ◌≢◌, ◌∷◌, ◌<◌, ◌^◌, ℕ, [], decimal, IfErr, IfOk, IfNone, IfSome, List, OnOk, ⊤};
ghost use Rattle.std.specs.Bool.{MatchBool};
ghost use Rattle.json.specs.Print.{IsNumber};
ghost use Rattle.json.specs.Token.{Token as SpecToken, begin_array, begin_object, end_array, end_object, key, number};
ghost use Rattle.graph_data.specs.Data.{StandsFirst, IsTarget, left_in, member_tokens, number_tokens, Spells, string_tokens};
ghost use Rattle.graph_data.specs.Fault.{IsBadData, StopsUnless};

use crate::fault::DataFault;
use json::{Reader, Token};

/// The text that is read.
#[derive(Drop)]
pub(crate) struct Source<'a> {
    reader: Reader<'a>,
}

impl<'a> Source<'a> {
    pub(crate) fn new(reader: Reader<'a>) -> Source<'a>
        ensures { left_in result ≡ reader.entry }
    {
        Source { reader }
    }

    /// What was read last, or what stands next, is not what is wanted.
    pub(crate) fn fault(&self) -> DataFault
        ensures { IsBadData result }
    {
        DataFault::BadData(self.reader.offset())
    }

    pub(crate) fn begin_object(&mut self) -> Result<(), DataFault>
        ensures read { OnOk result (left_in self.old ≡ begin_object ∷ left_in self.new) }
        ensures refused { IfErr result (StopsUnless (StandsFirst begin_object (left_in self.old))) }
    {
        match self.reader.next() {
            Some(Token::BeginObject) => Ok(()),
            _ => Err(self.fault()),
        }
    }

    pub(crate) fn end_object(&mut self) -> Result<(), DataFault>
        ensures read { OnOk result (left_in self.old ≡ end_object ∷ left_in self.new) }
        ensures refused { IfErr result (StopsUnless (StandsFirst end_object (left_in self.old))) }
    {
        match self.reader.next() {
            Some(Token::EndObject) => Ok(()),
            _ => Err(self.fault()),
        }
    }

    /// The key has to be this one, and its value an array.
    pub(crate) fn begin_array_at(&mut self, wanted: &str) -> Result<(), DataFault>
        ensures read { OnOk result
            (left_in self.old ≡ key wanted.now ∷ begin_array ∷ left_in self.new) }
        ensures refused { IfErr result (StopsUnless ((rest : List SpecToken) ×
            (left_in self.old ≡ key wanted.now ∷ begin_array ∷ rest))) }
    {
        self.key(wanted)?;
        match self.reader.next() {
            Some(Token::BeginArray) => Ok(()),
            _ => Err(self.fault()),
        }
    }

    /// Takes the end of an array, if it is next.
    pub(crate) fn is_end_of_array(&mut self) -> bool
        ensures { MatchBool result (left_in self.old ≡ end_array ∷ left_in self.new)
            ((left_in self.new ≡ left_in self.old) × ¬ (StandsFirst end_array (left_in self.old))) }
    {
        self.reader.take_end_array()
    }

    /// The key has to be this one.
    fn key(&mut self, wanted: &str) -> Result<(), DataFault>
        ensures read { OnOk result (left_in self.old ≡ key wanted.now ∷ left_in self.new) }
        ensures refused { IfErr result (StopsUnless (
            StandsFirst (key wanted.now) (left_in self.old))) }
    {
        match self.reader.next() {
            Some(Token::Key(key)) if key == wanted => Ok(()),
            _ => Err(self.fault()),
        }
    }

    pub(crate) fn string(&mut self) -> Result<&'a str, DataFault>
        ensures read { IfOk result
            (λ text. left_in self.old ≡ string_tokens text.now (left_in self.new)) }
        ensures refused { IfErr result
            (StopsUnless (Spells (λ _. ⊤) string_tokens (left_in self.old))) }
    {
        match self.reader.next() {
            Some(Token::String(text)) => Ok(text),
            _ => Err(self.fault()),
        }
    }

    /// The key has to be this one, and its value a string.
    pub(crate) fn string_at(&mut self, wanted: &str) -> Result<&'a str, DataFault>
        ensures read { IfOk result (λ text.
            left_in self.old ≡ member_tokens wanted.now string_tokens text.now (left_in self.new)) }
        ensures refused { IfErr result (StopsUnless
            (Spells (λ _. ⊤) (member_tokens wanted.now string_tokens) (left_in self.old))) }
    {
        self.key(wanted)?;
        self.string()
    }

    /// The key has to be this one, and its value a number without sign, point or exponent.
    pub(crate) fn number_at(&mut self, wanted: &str) -> Result<usize, DataFault>
        ensures read { IfOk result (λ n.
            left_in self.old ≡ member_tokens wanted.now number_tokens n (left_in self.new)) }
        ensures refused { IfErr result (StopsUnless
            (Spells IsTarget (member_tokens wanted.now number_tokens) (left_in self.old))) }
    {
        self.key(wanted)?;
        match self.reader.next() {
            Some(Token::Number(text)) => number_of(text).ok_or(self.fault()),
            _ => Err(self.fault()),
        }
    }

    /// The end of an object, after which nothing may follow.
    pub(crate) fn end(&mut self) -> Result<(), DataFault>
        ensures read { OnOk result (left_in self.old ≡ end_object ∷ []) }
        ensures refused { IfErr result (StopsUnless (left_in self.old ≡ end_object ∷ [])) }
    {
        self.end_object()?;
        match self.reader.next() {
            None => Ok(()),
            Some(_) => Err(self.fault()),
        }
    }
}

// The number of a text that has digits alone.
fn number_of(text: &str) -> Option<usize>
    requires { IsNumber text.now }
    ensures some { IfSome result (λ n. text.now ≡ decimal n) }
    ensures none { IfNone result ((n : ℕ) → n < 2 ^ 64 → text.now ≢ decimal n) }
{
    text.parse::<usize>().ok()
}
