//! Places on the stack.
ghost use Rattle.std.specs.Prelude.{◌≡◌};

/// A place on the stack, counted from the first goal, whose depth is 0. Ports `StackDepth`.
#[derive(Clone, Copy, Debug, Default, PartialEq, Eq, PartialOrd, Ord, Hash)]
pub struct StackDepth(usize);

impl StackDepth {
    /// The place with that number of entries below it.
    pub fn new(n: usize) -> StackDepth
        ensures { result.0 ≡ n }
    {
        StackDepth(n)
    }

    /// How many entries stand below this place.
    pub fn index(self) -> usize
        ensures { result ≡ self.0 }
    {
        self.0
    }
}
