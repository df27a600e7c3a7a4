//! How the proof trees of tables of rules are written: goals by their names, results by their words, and kinds of steps by
//! their letters, as in the rules.
//!
//! | File of `specs/` | Has |
//! |---|---|
//! | `Words` | how goals, results and kinds are written |
#![tactic(auto)]

use delegate_parts::Outcome;
use path_kinds::path::PathKind;
use proof_trees::Words;
use rule_tables::{Goal, Rules};
use std::io;
use std::io::Write;

/// The words of a table of rules.
#[derive(Drop)]
pub struct TableWords<'a> {
    /// The rules, which have the names of the goals.
    pub rules: &'a Rules,
}

impl Words<Goal, Outcome> for TableWords<'_> {
    ghost use Rattle.table_words.specs.Below.{word_of};
    ghost use Rattle.table_words.specs.Words.{kind_letter, name_or_none};

    ghost kind_words = { λ words kind. kind_letter kind };

    ghost goal_words = { λ words goal. name_or_none words.rules.now goal };

    ghost result_words = { λ words outcome. word_of outcome };

    fn write_kind<W: Write>(&self, out: &mut W, kind: PathKind) -> io::Result<()> {
        out.write_all(match kind {
            PathKind::Inductive => b"i",
            PathKind::Unknown => b"u",
            PathKind::Coinductive => b"c",
            PathKind::ForcedAmbiguity => b"f",
        })
    }

    fn write_goal<W: Write>(&self, out: &mut W, goal: Goal) -> io::Result<()> {
        out.write_all(self.rules.name(goal).unwrap_or(b""))
    }

    fn write_result<W: Write>(&self, out: &mut W, outcome: Outcome) -> io::Result<()> {
        write!(out, "{outcome}")
    }
}
