//! The candidates of a goal. A table keeps the questions of all of them in one list.
ghost use Rattle.std.specs.Prelude.{◌≡◌, ◌<◌, ◌^◌, ◌+◌, length, slice_get, IfSome};

use crate::rules::Asking;
use std::marker::Model;

/// What a table keeps of a candidate. There are many, so they are small.
#[derive(Clone, Copy, Debug)]
pub(crate) struct Row {
    /// Where its questions stand in the list of all.
    pub(crate) first: u32,
    pub(crate) count: u32,
    pub(crate) is_marked: bool,
}

const _: () = prove!(size_of::<Row>() == 12);

/// One way in which a goal may hold: where all its questions do.
#[derive(Debug, Drop)]
pub struct Candidate<'a> {
    row: Row,
    // Those of the whole table.
    askings: &'a [Asking],
}

impl<'a> Model for Candidate<'a> {
    ghost use Rattle.rule_tables.specs.Candidate as candidate;

    ghost Value = { candidate.Candidate };

    ghost view = { λ c. candidate.candidate_with c.askings.now c.row };
}

impl Candidate<'_> {
    /// Whether it no longer counts once a candidate without a mark holds.
    pub fn is_marked(&self) -> bool
        ensures { result ≡ self.now.is_marked }
    {
        self.row.is_marked
    }

    /// Its questions, in order.
    pub fn questions(&self) -> &[Asking]
        ensures { result.now ≡ self.now.questions }
    {
        let rest = match self.askings.get(self.row.first as usize..) {
            Some(rest) => rest,
            None => &[],
        };
        match rest.get(..self.row.count as usize) {
            Some(questions) => questions,
            None => rest,
        }
    }

    /// Its question at this place.
    pub fn question(&self, place: usize) -> Option<Asking>
        ensures value { result ≡ slice_get self.now.questions place }
        ensures few { IfSome result (λ _. place + 1 < 2 ^ 32) }
    {
        if place >= self.row.count as usize {
            return None;
        }
        self.askings.get(self.row.first as usize + place).copied()
    }
}

/// The candidates of a goal, in the order of their rules.
#[derive(Debug, Drop)]
pub struct Candidates<'a> {
    rows: &'a [Row],
    // Those of the whole table.
    askings: &'a [Asking],
}

impl<'a> Model for Candidates<'a> {
    ghost use Rattle.std.specs.Prelude.{List, length, ◌<◌, ◌^◌};
    ghost use Rattle.rule_tables.specs.Candidate as candidate;

    ghost Value = { List candidate.Candidate };

    ghost view = { λ all. candidate.candidates_with all.askings.now all.rows.now };

    ghost invariant = { λ all. length all.rows.now < 2 ^ 32 };
}

impl<'a> Candidates<'a> {
    ghost use Rattle.rule_tables.specs.Candidate.{candidates_with};

    pub(crate) fn new(rows: &'a [Row], askings: &'a [Asking]) -> Candidates<'a>
        requires { length rows.now < 2 ^ 32 }
        ensures { result ≡ candidates_with askings.now rows.now }
    {
        Candidates { rows, askings }
    }

    /// How many there are.
    pub fn count(&self) -> usize
        ensures { result ≡ length self.now }
    {
        self.rows.len()
    }

    /// The candidate at this place.
    pub fn get(&self, place: usize) -> Option<Candidate<'a>>
        ensures value { result ≡ slice_get self.now place }
        ensures few { IfSome result (λ _. place + 1 < 2 ^ 32) }
    {
        let row = self.rows.get(place)?;
        Some(Candidate {
            row: *row,
            askings: self.askings,
        })
    }
}
