//! Goals of rows as a delegate.
ghost use Rattle.std.specs.Prelude.{◌≡◌, ◌<◌, take, drop, slice_get, IfSome};
ghost use Rattle.rule_arrays.specs.Table.{kind_of};

use crate::rows::{CandidateRow, LendsArrays, NOT_KNOWN};
use candidate_lists::{CandidateLists, CandidatesDelegate};
use search_context::path::PathKind;

/// The goals of the rows that are lent, each by its place.
#[derive(Clone, Copy)]
pub struct RulesIn<L> {
    pub lender: L,
}

/// The delegate of such goals, which has eight runs of a goal and the provisional cache.
pub type ArraysDelegate<L> = CandidatesDelegate<RulesIn<L>, 8, 1>;

// A goal whose candidates are not known has one, which asks the goal itself by forced ambiguity, and so says maybe. A
// number that is no goal's has none.
impl<L: LendsArrays> CandidateLists for RulesIn<L> {
    ghost use Rattle.std.proofs.Common.{rules};
    ghost use Rattle.rule_arrays.specs.Table.{candidates_of, most_steps, question_of};
    ghost use Rattle.rule_arrays.specs.declared.rows.QuestionRow as row;

    type Input = u32;

    ghost Asking = { row.QuestionRow };

    ghost question_of = { question_of };

    ghost candidates_of = { λ goals goal. candidates_of (L.table_of goals.lender) goal };

    ghost most = { λ goals. most_steps (L.table_of goals.lender) };

    ghost same_input = { Prim.search rules };

    // These two are called in several places of a step, and so not inlined unasked.
    #[inline(always)]
    fn mark(self, goal: u32, candidate: usize) -> Option<bool> {
        let row = row_at(self.lender.goals(), goal as usize)?;
        if row.count != NOT_KNOWN {
            let candidate = row_of(self.lender.candidates(), row.first, row.count, candidate)?;
            Some(candidate.is_marked != 0)
        } else if candidate == 0 {
            Some(false)
        } else {
            None
        }
    }

    #[inline(always)]
    fn question(self, goal: u32, candidate: usize, place: usize) -> Option<(PathKind, u32)> {
        let row = row_at(self.lender.goals(), goal as usize)?;
        if row.count != NOT_KNOWN {
            let candidate = row_of(self.lender.candidates(), row.first, row.count, candidate)?;
            let question = row_of(
                self.lender.questions(),
                candidate.first,
                candidate.count,
                place,
            )?;
            Some((kind_of(question.kind), question.goal))
        } else if candidate == 0 && place == 0 {
            Some((PathKind::ForcedAmbiguity, goal))
        } else {
            None
        }
    }
}

// What stands at a place of so many elements of the list, from the first one on.
fn row_of<T: Copy>(list: &[T], first: u32, count: u32, place: usize) -> Option<T>
    ensures value { result ≡ slice_get (take count (drop first list.now)) place }
    ensures few { IfSome result (λ _. place < count) }
{
    if place >= count as usize {
        return None;
    }
    row_at(list, first as usize + place)
}

fn row_at<T: Copy>(list: &[T], place: usize) -> Option<T>
    ensures { result ≡ slice_get list.now place }
{
    list.get(place).copied()
}

// The kind of a step with this number.
fn kind_of(number: u32) -> PathKind
    ensures { result ≡ kind_of number }
{
    match number {
        0 => PathKind::Inductive,
        1 => PathKind::Unknown,
        2 => PathKind::Coinductive,
        _ => PathKind::ForcedAmbiguity,
    }
}
