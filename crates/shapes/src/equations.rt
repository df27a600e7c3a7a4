//! Equations, each of which declares a shape.
ghost use Rattle.std.specs.Prelude.{◌≡◌, ◌∷◌, ◌++◌, [], length, slice_get, IfOk, OnOk, OnErr};
ghost use Rattle.std.specs.Option.{option_copied};
ghost use Rattle.shapes.specs.Bisimulation.{equations_of};

use search_context::context::NoMemory;
use std::alloc::Global;

/// An equation: the shape that it declares has this label and these parts, which are the numbers of shapes.
#[derive(Debug, Drop)]
pub struct Equation {
    pub label: u32,
    pub parts: Vec<usize>,
}

/// Shapes. The number of a shape is the place of its equation.
#[derive(Debug, Drop)]
pub struct Shapes {
    equations: Vec<Equation>,
}

impl Shapes {
    /// No shapes yet. It takes no memory.
    pub fn new(alloc: Global) -> Shapes
        ensures { equations_of result ≡ [] }
    {
        Shapes {
            equations: Vec::new(alloc),
        }
    }

    /// Declares one more shape, and answers its number. Its parts may be shapes that are declared later, and itself; a
    /// number that is never declared is no shape, and equal to none. `NoMemory` leaves the shapes as they were.
    pub fn declare(&mut self, label: u32, parts: Vec<usize>) -> Result<usize, NoMemory>
        ensures number { IfOk result (λ number. number ≡ length (equations_of self.old)) }
        ensures declared { OnOk result (equations_of self.new
            ≡ equations_of self.old ++ record { label = label; parts = parts } ∷ []) }
        ensures refused { OnErr result (equations_of self.new ≡ equations_of self.old) }
    {
        let number = self.equations.len();
        self.equations.push(Equation { label, parts })?;
        Ok(number)
    }

    /// The equation of a shape, if the number is one.
    pub fn equation(&self, shape: usize) -> Option<&Equation>
        ensures { option_copied result ≡ slice_get (equations_of self.now) shape }
    {
        self.equations.get(shape)
    }
}
