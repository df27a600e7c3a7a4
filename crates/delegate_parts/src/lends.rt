//! What lends a value.

/// What lends a `T`, as a reference does. Contexts and goals are `Copy`, so what is too large for that stands behind one of these,
/// and a function that owns a cache is generic in it.
pub trait Lends<T>: Copy {
    ghost use Rattle.std.specs.Prelude.{◌≡◌};

    /// What it lends.
    ghost lent_by: { Self → T };

    /// What it lends.
    fn lent(&self) -> &T
        ensures { result.now ≡ lent_by self.now };
}

impl<'a, T> Lends<T> for &'a T {
    ghost lent_by = { λ lender. lender.now };

    fn lent(&self) -> &T {
        *self
    }
}
