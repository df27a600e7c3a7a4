//! How types are made.

use crate::numbered::Key;

/// How a type is made.
#[derive(Clone, Copy, Debug, PartialEq, Eq, Hash, Drop)]
pub enum Made {
    /// A constructor, by its number, without arguments.
    Constructor(usize),
    /// A type with one argument more, both by their numbers: `Map<K, V>` is `Map<K>` with `V`.
    Applied(usize, usize),
}

impl Key for Made {
    ghost use Rattle.std.proofs.Common.{rules};

    ghost same_key = { Prim.search rules };

    // Most questions are for types without arguments.
    fn row(&self) -> usize {
        match self {
            Made::Constructor(constructor) => *constructor,
            Made::Applied(_, _) => usize::MAX,
        }
    }
}
