//! Games of two players, and from which positions player One wins.
//!
//! On One's turn some move has to lead to a position from which One wins, and on Two's turn each move has to. So who has
//! no move loses, and play that goes on without end is not won. Positions may lead back to themselves.
//!
//! The rule is a dozen lines, in `delegate`; the search does the rest.
//!
//! | File of `specs/` | Has |
//! |---|---|
//! | `Strategy` | how One wins, as a tree of finite depth; it names no search |
//! | `Rule` | the rule of a position as a list of questions |
//! | `Solved` | the positions of a solver's game, and whether a question was cut off |
#![tactic(auto)]

mod delegate;
mod game;
mod solver;
mod wins;

pub use delegate::{GamesDelegate, PositionsOf};
pub use game::{Game, Player, Position};
pub use solver::Solver;
