//! Programs as blocks.
ghost use Rattle.reach.specs.Paths.{GoDown};

/// A block: the variables that it may write, and the blocks from which it is entered.
#[derive(Debug, Drop)]
pub struct Block {
    pub writes: Vec<u32>,
    pub predecessors: Vec<usize>,
}

/// Blocks. The number of a block is its place, and each is entered from blocks of smaller numbers alone.
#[derive(Debug, Drop)]
pub struct Program {
    pub(crate) blocks: Vec<Block>,
    ghost go_down: { GoDown blocks.items },
}
