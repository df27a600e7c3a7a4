//! The words that are not read yet, and what one or two of them stand for.
ghost use Rattle.std.specs.Prelude.{◌≡◌, ◌≢◌, ◌∷◌, [], IfErr, IfNone, IfOk, IfSome, ⊤};
ghost use Rattle.std.specs.Bool.{MatchBool};
ghost use Rattle.graph_words.specs.Below.{Outcome as SpecOutcome, PathKind as SpecKind, Reply as SpecReply};
ghost use Rattle.graph_words.specs.Fault.{StopsUnless};
ghost use Rattle.graph_words.specs.Words.{IsGoal, Spells, edge_words, kind_word, left_in, outcome_word, outcome_words, plain_word, reply_word, reply_words};

use crate::fault::WordsFault;
use delegate_parts::Outcome;
use path_kinds::path::PathKind;
use search_context::context::{Edge, Reply};

/// The words that are left.
#[derive(Drop)]
pub(super) struct Source<'a> {
    left: &'a [u64],
}

impl<'a> Source<'a> {
    pub(super) fn new(words: &'a [u64]) -> Source<'a>
        ensures { left_in result ≡ words.now }
    {
        Source { left: words }
    }

    /// Whether no word is left.
    pub(super) fn is_at_end(&self) -> bool
        ensures { MatchBool result (left_in self.now ≡ []) (left_in self.now ≢ []) }
    {
        self.left.is_empty()
    }

    /// The next word.
    pub(super) fn word(&mut self) -> Result<u64, WordsFault>
        ensures read { IfOk result (λ word. left_in self.old ≡ word ∷ left_in self.new) }
        ensures refused { IfErr result (StopsUnless (Spells (λ _. ⊤) plain_word (left_in self.old))) }
    {
        let Some((first, rest)) = self.left.split_first() else {
            return Err(WordsFault::NoGraph);
        };
        self.left = rest;
        Ok(*first)
    }

    /// The goal that the next word is.
    pub(super) fn goal(&mut self) -> Result<u32, WordsFault>
        ensures read { IfOk result (λ goal. left_in self.old ≡ goal ∷ left_in self.new) }
        ensures in_range { IfOk result IsGoal }
        ensures refused { IfErr result (StopsUnless (Spells IsGoal plain_word (left_in self.old))) }
    {
        let word = self.word()?;
        goal_with(word).ok_or(WordsFault::NoGraph)
    }

    /// The outcome that the next word stands for.
    pub(super) fn outcome(&mut self) -> Result<Outcome, WordsFault>
        ensures read { IfOk result (λ outcome.
            left_in self.old ≡ outcome_word outcome ∷ left_in self.new) }
        ensures refused { IfErr result
            (StopsUnless (Spells (λ _. ⊤) outcome_words (left_in self.old))) }
    {
        let word = self.word()?;
        outcome_with(word).ok_or(WordsFault::NoGraph)
    }

    /// The reply that the next word stands for.
    pub(super) fn reply(&mut self) -> Result<Reply<Outcome>, WordsFault>
        ensures read { IfOk result (λ reply.
            left_in self.old ≡ reply_word reply ∷ left_in self.new) }
        ensures refused { IfErr result
            (StopsUnless (Spells (λ _. ⊤) reply_words (left_in self.old))) }
    {
        let word = self.word()?;
        reply_with(word).ok_or(WordsFault::NoGraph)
    }

    /// The edge that the next two words stand for, whose goal is not known yet.
    pub(super) fn edge(&mut self) -> Result<Edge<u32>, WordsFault>
        ensures read { IfOk result (λ edge. left_in self.old ≡ edge_words edge (left_in self.new)) }
        ensures refused { IfErr result
            (StopsUnless (Spells (λ _. ⊤) edge_words (left_in self.old))) }
    {
        let word = self.word()?;
        let kind = kind_with(word).ok_or(WordsFault::NoGraph)?;
        let target = self.word()? as usize;
        Ok(Edge {
            kind,
            input: 0,
            target,
        })
    }
}

fn goal_with(word: u64) -> Option<u32>
    ensures some { IfSome result (λ goal. (word ≡ goal) × IsGoal word) }
    ensures none { IfNone result (¬ (IsGoal word)) }
{
    u32::try_from(word).ok()
}

fn outcome_with(word: u64) -> Option<Outcome>
    ensures some { IfSome result (λ outcome. word ≡ outcome_word outcome) }
    ensures none { IfNone result ((outcome : SpecOutcome) → word ≢ outcome_word outcome) }
{
    match word {
        0 => Some(Outcome::Yes),
        1 => Some(Outcome::No),
        2 => Some(Outcome::Maybe),
        3 => Some(Outcome::Overflow),
        _ => None,
    }
}

fn reply_with(word: u64) -> Option<Reply<Outcome>>
    ensures some { IfSome result (λ reply. word ≡ reply_word reply) }
    ensures none { IfNone result ((reply : SpecReply SpecOutcome) → word ≢ reply_word reply) }
{
    match word {
        4 => Some(Reply::Noted),
        5 => Some(Reply::Begin),
        _ => Some(Reply::Answer(outcome_with(word)?)),
    }
}

fn kind_with(word: u64) -> Option<PathKind>
    ensures some { IfSome result (λ kind. word ≡ kind_word kind) }
    ensures none { IfNone result ((kind : SpecKind) → word ≢ kind_word kind) }
{
    match word {
        0 => Some(PathKind::Inductive),
        1 => Some(PathKind::Unknown),
        2 => Some(PathKind::Coinductive),
        3 => Some(PathKind::ForcedAmbiguity),
        _ => None,
    }
}
