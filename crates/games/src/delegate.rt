//! The rule of a position: where its moves lead, and whether all of them have to be won.
ghost use Rattle.std.specs.Prelude.{◌≡◌};
ghost use Rattle.games.specs.Rule.{most_moves, needs_of, questions_of};
ghost use Rattle.games.specs.Strategy.{positions_of};

use crate::game::{Game, Player};
use delegate_parts::Lends;
use question_lists::{ListsDelegate, Needs, QuestionLists};
use search_context::path::PathKind;

/// The positions of the game that is lent, as goals: whether One wins from the position with this number.
#[derive(Clone, Copy)]
pub struct PositionsOf<G> {
    pub lender: G,
}

/// The delegate of games, which has eight runs of a position and the provisional cache.
pub type GamesDelegate<G> = ListsDelegate<PositionsOf<G>, 8, 1>;

// Each move is asked, inductively, since play without end is not won. On One's turn any of them suffices, and on Two's all
// are needed. What is no position needs any of no questions, so it is not won.
impl<G: Lends<Game>> QuestionLists for PositionsOf<G> {
    ghost use Rattle.std.proofs.Common.{rules};

    type Input = usize;

    ghost needs_of = { λ positions at. needs_of (positions_of (G.lent_by positions.lender)) at };

    ghost questions_of = { λ positions at. questions_of (positions_of (G.lent_by positions.lender)) at };

    ghost most = { λ positions. most_moves (positions_of (G.lent_by positions.lender)) };

    ghost same_input = { Prim.search rules };

    fn needs(self, position: usize) -> Needs {
        match self.lender.lent().turn(position) {
            Some(Player::Two) => Needs::All,
            _ => Needs::Any,
        }
    }

    fn count(self, position: usize) -> usize {
        self.lender.lent().moves(position).len()
    }

    fn question(self, position: usize, place: usize) -> (PathKind, usize) {
        let moves = self.lender.lent().moves(position);
        let next = *moves.get(place).unwrap_or(&position); // there is one
        (PathKind::Inductive, next)
    }
}
