//! How a program is built, and what it is asked.
ghost use Rattle.std.specs.Prelude.{◌≡◌, ◌∷◌, ◌++◌, ◌<◌, [], All, length, IfOk, OnOk, OnErr, Err, MatchBool};
ghost use Rattle.reach.specs.Program.{blocks_of};
ghost use Rattle.reach.specs.Rule.{predecessors_of, writes_at};

use crate::program::{Block, Program};
use std::alloc::{AllocError, AllocFailed, Global};
use thiserror::Error;

/// Why a block was not added.
#[derive(Clone, Copy, Debug, PartialEq, Eq, Error)]
pub enum AddFault {
    /// A predecessor isn't there yet.
    #[error("a predecessor is missing")]
    Missing,
    /// Memory is out.
    #[error("out of memory")]
    Memory,
}

impl From<AllocError> for AddFault {
    ghost use Rattle.reach.specs.declared.building.AddFault.TheVariants.{Memory};

    ghost from_gives = { λ _ fault. fault ≡ Memory };

    fn from(_error: AllocError) -> AddFault {
        AddFault::Memory
    }
}

impl<T: Drop> From<AllocFailed<T>> for AddFault {
    ghost use Rattle.reach.specs.declared.building.AddFault.TheVariants.{Memory};

    ghost from_gives = { λ _ fault. fault ≡ Memory };

    fn from(_error: AllocFailed<T>) -> AddFault {
        AddFault::Memory
    }
}

impl Program {
    ghost use Rattle.reach.specs.declared.building.AddFault.TheVariants.{Missing};

    /// A program without blocks. It takes no memory.
    pub fn new(alloc: Global) -> Program
        ensures { blocks_of result ≡ [] }
    {
        Program {
            blocks: Vec::new(alloc),
        }
    }

    /// Adds a block, and answers its number. After a fault the program is as it was.
    pub fn add(&mut self, writes: Vec<u32>, predecessors: Vec<usize>) -> Result<usize, AddFault>
        ensures number { IfOk result (λ number. number ≡ length (blocks_of self.old)) }
        ensures added { OnOk result (blocks_of self.new
            ≡ blocks_of self.old ++ record { writes = writes; predecessors = predecessors } ∷ []) }
        ensures missing { result ≡ Err Missing
            → All (λ p. p < length (blocks_of self.old)) predecessors.items → ⊥ }
        ensures refused { OnErr result (blocks_of self.new ≡ blocks_of self.old) }
    {
        let number = self.blocks.len();
        if !are_below(&predecessors, number) {
            return Err(AddFault::Missing);
        }
        self.blocks.push(Block {
            writes,
            predecessors,
        })?;
        Ok(number)
    }

    /// The blocks from which a block is entered; a number that is no block has none.
    pub fn predecessors(&self, block: usize) -> &[usize]
        ensures { result.now ≡ predecessors_of (blocks_of self.now) block }
    {
        match self.blocks.get(block) {
            Some(found) => found.predecessors.as_slice(),
            None => &[],
        }
    }

    /// Whether a block may write a variable; a number that is no block writes none.
    pub fn writes(&self, block: usize, variable: u32) -> bool
        ensures { result ≡ writes_at (blocks_of self.now) variable block }
    {
        match self.blocks.get(block) {
            Some(found) => found.writes.contains(&variable),
            None => false,
        }
    }
}

// Whether all numbers are below a bound.
fn are_below(numbers: &[usize], bound: usize) -> bool
    ensures { MatchBool result (All (λ n. n < bound) numbers.now)
        (All (λ n. n < bound) numbers.now → ⊥) }
{
    numbers.iter().all(|number| *number < bound)
}
