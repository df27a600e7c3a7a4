//! Unions that lead back to themselves through unions alone.
ghost use Rattle.std.specs.Prelude.{◌≡◌, ◌==◌, ℕ, Some, None, IfOk, take, length, slice_get, slice_index};
ghost use Rattle.std.specs.List.{list_any};
ghost use Rattle.type_order.specs.Order.{AreDeclared, IsContractive};
ghost use Rattle.type_order.specs.Rule.{alternatives_in};
ghost use Rattle.type_order.specs.Subtypes.{forms_of};
ghost use Rattle.type_texts.specs.Words.{HasStep, IsUnionOfItself, successor_lists, union_lists};

use search_context::context::NoMemory;
use std::alloc::Global;
use strong_components::components;
use type_order::{Form, Types};

/// The first of so many types that is a union of itself through unions alone, if there is one.
pub(crate) fn unguarded_union(
    alloc: Global,
    types: &Types,
    count: usize,
) -> Result<Option<usize>, NoMemory>
    requires declared { AreDeclared (forms_of types.now) }
    requires all { count ≡ length (forms_of types.now) }
    ensures none { result ≡ Ok None → IsContractive (forms_of types.now) }
    ensures some { (n : ℕ) → result ≡ Ok (Some n) → IsUnionOfItself (forms_of types.now) n }
{
    let graph = union_graph(alloc, types, count)?;
    let numbers = components(alloc, graph.as_slice())?;
    Ok(first_within(graph.as_slice(), numbers.as_slice()))
}

// The alternatives of each type, by their numbers: those of a union, and none of another type.
fn union_graph(alloc: Global, types: &Types, count: usize) -> Result<Vec<Vec<usize>>, NoMemory>
    requires { count ≡ length (forms_of types.now) }
    ensures { IfOk result
        (λ graph. successor_lists graph.items ≡ union_lists (forms_of types.now)) }
{
    let mut graph = Vec::with_capacity(alloc, count)?;
    for number in 0..count {
        graph.push(Vec::from_slice(alloc, alternatives(types, number))?)?;
    }
    Ok(graph)
}

fn alternatives(types: &Types, number: usize) -> &[usize]
    ensures { result.now ≡ alternatives_in (slice_get (forms_of types.now) number) }
{
    match types.form(number) {
        Some(Form::Union(alternatives)) => alternatives.as_slice(),
        _ => &[],
    }
}

// The first place with a step that stays in its component.
fn first_within(graph: &[Vec<usize>], numbers: &[usize]) -> Option<usize>
    ensures none { result ≡ None → (a b : ℕ) → HasStep (successor_lists graph.now) a b →
        slice_index numbers.now b ≡ slice_index numbers.now a → ⊥ }
    ensures some { (a : ℕ) → result ≡ Some a → (b : ℕ) × HasStep (successor_lists graph.now) a b
        × (slice_index numbers.now b ≡ slice_index numbers.now a) }
{
    for (place, successors) in graph.iter().enumerate() {
        if has_number(successors.as_slice(), numbers, number_of(numbers, place)) {
            return Some(place);
        }
    }
    None
}

// Whether one of the places has this number.
fn has_number(places: &[usize], numbers: &[usize], number: usize) -> bool
    ensures { result ≡ list_any (λ place. slice_index numbers.now place == number) places.now }
{
    places
        .iter()
        .any(|place| number_of(numbers, *place) == number)
}

// The number of the place.
fn number_of(numbers: &[usize], place: usize) -> usize
    ensures { result ≡ slice_index numbers.now place }
{
    numbers.get(place).copied().unwrap_or(0)
}
