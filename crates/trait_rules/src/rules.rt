//! Rules: impls, and the types of which others consist.

use path_kinds::path::PathKind;

/// A type in a rule, whose parameters stand for any types. Each shape has a number, its place in the rule, and equal parameters
/// have one.
#[derive(Clone, Copy, Debug, PartialEq, Eq)]
pub enum Shape {
    Parameter,
    /// A constructor without arguments.
    Constructor(usize),
    /// The first shape with the second as one argument more, both by their numbers, which are less than that of this one.
    Applied(usize, usize),
}

/// A trait that a rule asks for.
#[derive(Clone, Copy, Debug, PartialEq, Eq)]
pub enum Bound {
    /// The one that the rule is asked for, as an auto trait is asked of each field.
    Same,
    /// The trait of this number.
    Trait(usize),
}

/// What else has to hold: the type of this shape implements the trait.
#[derive(Clone, Copy, Debug, PartialEq, Eq)]
pub struct Clause {
    pub shape: usize,
    pub bound: Bound,
}

/// A rule: types of the shape `head` implement a trait if all clauses hold.
#[derive(Debug, Drop)]
pub struct Rule {
    pub shapes: Vec<Shape>,
    pub head: usize,
    pub clauses: Vec<Clause>,
}

/// An impl for types of one constructor.
#[derive(Debug, Drop)]
pub struct Listed {
    /// The trait.
    pub bound: usize,
    /// None where it is negative.
    pub rule: Option<Rule>,
}

/// What is known of a constructor.
#[derive(Debug, Drop)]
pub struct Constructor {
    /// The rule by its fields, unless it is one without such a rule, as that of `dyn Trait`.
    pub fields: Option<Rule>,
    /// The impls for its types.
    pub impls: Vec<Listed>,
}

/// What is known of a trait.
#[derive(Debug, Drop)]
pub struct Trait {
    /// How a goal of the trait asks what it needs.
    pub kind: PathKind,
    /// It holds by fields, where no impl for the constructor stands in the way.
    pub is_auto: bool,
    /// The impls for any type, as `impl<T> Trait for T`.
    pub blanket: Vec<Rule>,
}

/// The rules of traits and of constructors, each by its number.
#[derive(Debug, Drop)]
pub struct Rules {
    pub traits: Vec<Trait>,
    pub constructors: Vec<Constructor>,
}
