//! Games as positions and moves.
ghost use Rattle.std.specs.Prelude.{◌≡◌, ◌∷◌, ◌++◌, [], length, slice_get, IfOk, OnOk, OnErr};
ghost use Rattle.std.specs.Option.{option_map};
ghost use Rattle.games.specs.Rule.{moves_of};
ghost use Rattle.games.specs.Strategy.{positions_of};

use search_context::context::NoMemory;
use std::alloc::Global;

/// A player.
#[derive(Clone, Copy, Debug, PartialEq, Eq)]
pub enum Player {
    /// The one whose wins are asked for.
    One,
    /// The other one.
    Two,
}

/// A position: whose turn it is, and to which positions the moves lead, which are told by their numbers.
#[derive(Debug, Drop)]
pub struct Position {
    pub turn: Player,
    pub moves: Vec<usize>,
}

/// A game. The number of a position is its place.
#[derive(Debug, Drop)]
pub struct Game {
    positions: Vec<Position>,
}

impl Game {
    /// A game without positions. It takes no memory.
    pub fn new(alloc: Global) -> Game
        ensures { positions_of result ≡ [] }
    {
        Game {
            positions: Vec::new(alloc),
        }
    }

    /// Adds a position, and answers its number. Its moves may lead to positions that are added later, and to itself; one
    /// that leads to a number that is never added is not won. `NoMemory` leaves the game as it was.
    pub fn add(&mut self, turn: Player, moves: Vec<usize>) -> Result<usize, NoMemory>
        ensures number { IfOk result (λ number. number ≡ length (positions_of self.old)) }
        ensures added { OnOk result (positions_of self.new
            ≡ positions_of self.old ++ record { turn = turn; moves = moves } ∷ []) }
        ensures refused { OnErr result (positions_of self.new ≡ positions_of self.old) }
    {
        let number = self.positions.len();
        self.positions.push(Position { turn, moves })?;
        Ok(number)
    }

    /// Whose turn it is, if the number is a position's.
    pub fn turn(&self, position: usize) -> Option<Player>
        ensures { result ≡ option_map (λ p. p.turn) (slice_get (positions_of self.now) position) }
    {
        let found = self.positions.get(position)?;
        Some(found.turn)
    }

    /// Where the moves of a position lead; a number that is no position has none.
    pub fn moves(&self, position: usize) -> &[usize]
        ensures { result.now ≡ moves_of (positions_of self.now) position }
    {
        match self.positions.get(position) {
            Some(found) => found.moves.as_slice(),
            None => &[],
        }
    }
}
