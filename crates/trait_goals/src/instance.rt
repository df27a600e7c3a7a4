//! The types that stand in the shapes of a rule.
ghost use Rattle.std.specs.Prelude.{◌≡◌, ℕ, List, true, length, slice_get, IfOk, IfSome, OnOk, Some};
ghost use Rattle.trait_goals.specs.Below.{IsInstance, IsOnce, IsShaped, Keeps, Made, Stands, Term};
ghost use Rattle.trait_goals.specs.Instances.{AllTold, AreMade, AreTold, IsMade};
ghost use Rattle.trait_goals.specs.Finding.{IsFound};

use search_context::context::NoMemory;
use std::alloc::Global;
use trait_rules::{Made, Rule, Shape, Terms};

/// What was found of a rule and a type.
#[derive(Clone, Copy, Debug)]
pub(crate) enum Found {
    /// The rule is none for the type.
    Apart,
    /// With a type for each of its shapes, the rule is one for the type.
    Types,
    /// The rule does not tell a type for each of its shapes.
    Open,
}

/// The types that stand in the shapes of a rule. Each rule that is tried takes the memory of the one before.
#[derive(Drop)]
pub(crate) struct Instance {
    /// Those of which the type itself consists.
    found: Vec<Option<usize>>,
    /// Those of all shapes, where they were found.
    all: Vec<usize>,
}

impl Instance {
    pub(crate) fn new(alloc: Global) -> Instance {
        Instance {
            found: Vec::new(alloc),
            all: Vec::new(alloc),
        }
    }

    /// The types of all shapes, where they were found.
    pub(crate) fn types(&self) -> &[usize]
        ensures { result.now ≡ self.now.all.items }
    {
        self.all.as_slice()
    }
}

/// What stands at a place.
pub(crate) fn at<T: Copy>(items: &[T], place: usize) -> Option<T>
    ensures { result ≡ slice_get items.now place }
{
    items.get(place).copied()
}

// Notes that the type of this number stands in a shape, unless another one does.
fn note(found: &mut Vec<Option<usize>>, place: usize, number: usize) -> bool
    ensures { (made : List Made) (types : ℕ → Term) → IsOnce made → AreTold made found.old.items types →
        Stands made number (types place) → (result ≡ true) × AreTold made found.new.items types }
{
    match at(found.as_slice(), place) {
        Some(Some(other)) => other == number,
        Some(None) => {
            found[place] = Some(number);
            true
        }
        None => true,
    }
}

// Notes the types of the parts of a shape.
fn note_parts(
    found: &mut Vec<Option<usize>>,
    first: usize,
    second: usize,
    applied: usize,
    argument: usize,
) -> bool
    ensures { (made : List Made) (types : ℕ → Term) → IsOnce made → AreTold made found.old.items types →
        Stands made applied (types first) → Stands made argument (types second) →
        (result ≡ true) × AreTold made found.new.items types }
{
    if note(found, first, applied) {
        note(found, second, argument)
    } else {
        false
    }
}

// Whether the type of this number has this shape, as far as the shape itself says; notes what stands in its parts.
fn match_shape(terms: &Terms, shape: Shape, number: usize, found: &mut Vec<Option<usize>>) -> bool
    ensures { (types : ℕ → Term) (term : Term) → AreTold terms.now found.old.items types →
        Stands terms.now number term → IsShaped types shape term →
        (result ≡ true) × AreTold terms.now found.new.items types }
{
    match shape {
        Shape::Parameter => true,
        Shape::Constructor(wanted) => match terms.get(number) {
            Some(Made::Constructor(constructor)) => wanted == constructor,
            _ => false,
        },
        Shape::Applied(first, second) => match terms.get(number) {
            Some(Made::Applied(applied, argument)) => {
                note_parts(found, first, second, applied, argument)
            }
            _ => false,
        },
    }
}

// The same for the shape at a place, if its type is known.
fn match_at(terms: &Terms, rule: &Rule, place: usize, found: &mut Vec<Option<usize>>) -> bool
    ensures { (types : ℕ → Term) (term : Term) → AreTold terms.now found.old.items types →
        IsInstance rule.now types term → (result ≡ true) × AreTold terms.now found.new.items types }
{
    let Some(shape) = at(rule.shapes.as_slice(), place) else {
        return true;
    };
    match at(found.as_slice(), place) {
        Some(Some(number)) => match_shape(terms, shape, number, found),
        _ => true,
    }
}

// Leaves no types but that of the head.
fn note_head(found: &mut Vec<Option<usize>>, rule: &Rule, subject: usize) -> Result<(), NoMemory>
    ensures { OnOk result ((place number : ℕ) → slice_get found.new.items place ≡ Some (Some number) →
        (place ≡ rule.now.head) × (number ≡ subject)) }
{
    found.clear();
    for place in 0..rule.shapes.len() {
        if place == rule.head {
            found.push(Some(subject))?;
        } else {
            found.push(None)?;
        }
    }
    Ok(())
}

// Whether the rule can be one for the subject. Then the types are found that stand in the shapes of which the head consists.
fn match_head(
    terms: &Terms,
    rule: &Rule,
    subject: usize,
    found: &mut Vec<Option<usize>>,
) -> Result<bool, NoMemory>
    ensures { IfOk result (λ is_for. (types : ℕ → Term) (term : Term) → Stands terms.now subject term →
        IsInstance rule.now types term → (is_for ≡ true) × AreTold terms.now found.new.items types) }
{
    if let Some(Shape::Constructor(wanted)) = at(rule.shapes.as_slice(), rule.head) {
        // It has no parts.
        found.clear();
        return Ok(match_shape(terms, Shape::Constructor(wanted), subject, found));
    }
    note_head(found, rule, subject)?;
    for place in (0..rule.shapes.len()).rev() {
        if !match_at(terms, rule, place, found) {
            return Ok(false);
        }
    }
    Ok(true)
}

// The number of the type that stands in a shape, if those of its parts are known.
fn number_of(
    terms: &mut Terms,
    shape: Shape,
    noted: Option<usize>,
    all: &[usize],
) -> Result<Option<usize>, NoMemory>
    ensures keeps { Keeps terms.old terms.new }
    ensures made { IfOk result (λ o. IfSome o (λ number. IsMade terms.new all.now shape number)) }
    ensures told { IfOk result (λ o. IfSome o (λ number. (types : ℕ → Term) (term : Term) →
        AllTold terms.old all.now types → IsShaped types shape term →
        IfSome noted (λ n. Stands terms.old n term) → Stands terms.new number term)) }
{
    match shape {
        Shape::Parameter => match noted {
            Some(number) if number < terms.len() => Ok(Some(number)),
            _ => Ok(None),
        },
        Shape::Constructor(constructor) => {
            let number = terms.constructor(constructor)?;
            Ok(Some(number))
        }
        Shape::Applied(first, second) => {
            let (Some(applied), Some(argument)) = (at(all, first), at(all, second)) else {
                return Ok(None);
            };
            let number = terms.applied(applied, argument)?;
            Ok(number)
        }
    }
}

// What was found for a shape.
fn noted_at(found: &[Option<usize>], place: usize) -> Option<usize>
    ensures { IfSome result (λ n. slice_get found.now place ≡ Some (Some n)) }
{
    match at(found, place) {
        Some(noted) => noted,
        None => None,
    }
}

// Finds the types of all shapes, of which these are found. Whether the rule tells them.
fn complete(
    terms: &mut Terms,
    rule: &Rule,
    found: &[Option<usize>],
    all: &mut Vec<usize>,
) -> Result<bool, NoMemory>
    ensures keeps { Keeps terms.old terms.new }
    ensures count { IfOk result (λ is_told. is_told ≡ true → length all.new.items ≡ length rule.now.shapes.items) }
    ensures made { IfOk result (λ is_told. is_told ≡ true → AreMade terms.new rule.now.shapes.items all.new.items) }
    ensures told { IfOk result (λ is_told. is_told ≡ true → (types : ℕ → Term) (term : Term) →
        AreTold terms.old found.now types → IsInstance rule.now types term →
        AllTold terms.new all.new.items types) }
{
    all.clear();
    for place in 0..rule.shapes.len() {
        let Some(shape) = at(rule.shapes.as_slice(), place) else {
            return Ok(false);
        };
        let noted = noted_at(found, place);
        let Some(number) = number_of(terms, shape, noted, all.as_slice())? else {
            return Ok(false);
        };
        all.push(number)?;
    }
    Ok(true)
}

/// Finds the types that stand in the shapes of a rule, where its head is the type of this number. Types that are new are added.
pub(crate) fn find_instance(
    instance: &mut Instance,
    terms: &mut Terms,
    rule: &Rule,
    subject: usize,
) -> Result<Found, NoMemory>
    ensures keeps { Keeps terms.old terms.new }
    ensures found { IfOk result (λ found. (term : Term) → Stands terms.old subject term →
        IsFound terms.new rule.now term instance.new.all.items found) }
{
    if !match_head(&*terms, rule, subject, &mut instance.found)? {
        return Ok(Found::Apart);
    }
    if !complete(terms, rule, instance.found.as_slice(), &mut instance.all)?
        || subject >= terms.len()
    {
        return Ok(Found::Open);
    }
    match at(instance.all.as_slice(), rule.head) {
        Some(number) if number == subject => Ok(Found::Types),
        Some(_) => Ok(Found::Apart),
        None => Ok(Found::Open),
    }
}
