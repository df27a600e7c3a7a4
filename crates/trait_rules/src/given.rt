//! Which rules a trait has for a type.
ghost use Rattle.std.specs.Prelude.{◌≡◌, ◌==◌, slice_get};
ghost use Rattle.std.specs.List.{list_any};
ghost use Rattle.std.specs.Option.{option_copied, option_map};
ghost use Rattle.trait_rules.specs.Rules.{blanket_at, bound_of, fields_at, fields_rule, impl_rule, impls_at, is_auto, kind_of, rules_for};

use crate::rules::{Bound, Listed, Rule, Rules};
use path_kinds::path::PathKind;

impl Rules {
    // The impls for types of a constructor.
    fn impls(&self, constructor: usize) -> &[Listed]
        ensures { result.now ≡ impls_at self.now constructor }
    {
        match self.constructors.get(constructor) {
            Some(known) => known.impls.as_slice(),
            None => &[],
        }
    }

    // The impls of a trait for any type.
    fn blanket(&self, bound: usize) -> &[Rule]
        ensures { result.now ≡ blanket_at self.now bound }
    {
        match self.traits.get(bound) {
            Some(known) => known.blanket.as_slice(),
            None => &[],
        }
    }

    fn is_auto(&self, bound: usize) -> bool
        ensures { result ≡ is_auto self.now bound }
    {
        match self.traits.get(bound) {
            Some(known) => known.is_auto,
            None => false,
        }
    }

    // Whether there is an impl of the trait for the constructor, negative ones among them.
    fn has_impl(&self, bound: usize, constructor: usize) -> bool
        ensures { result ≡ list_any (λ l. l.bound == bound) (impls_at self.now constructor) }
    {
        self.impls(constructor)
            .iter()
            .any(|listed| listed.bound == bound)
    }

    // The rule by the fields of a constructor's types.
    fn fields(&self, constructor: usize) -> Option<&Rule>
        ensures { option_copied result ≡ fields_at self.now constructor }
    {
        match self.constructors.get(constructor) {
            Some(known) => known.fields.as_ref(),
            None => None,
        }
    }

    // The rule by fields, if no impl stands in the way.
    fn by_fields(&self, bound: usize, constructor: usize) -> Option<&Rule>
        ensures { option_copied result ≡ fields_rule self.now bound constructor }
    {
        if self.is_auto(bound) && !self.has_impl(bound, constructor) {
            self.fields(constructor)
        } else {
            None
        }
    }

    /// What stands at a place of the list of rules that the trait has for types of the constructor, if it is so long: a rule, or
    /// nothing, as at the place of a negative impl.
    pub fn rule_at(&self, bound: usize, constructor: usize, place: usize) -> Option<Option<&Rule>>
        ensures { option_map (λ o. option_copied o) result
            ≡ slice_get (rules_for self.now bound constructor) place }
    {
        let impls = self.impls(constructor);
        if let Some(listed) = impls.get(place) {
            return Some(rule_of(listed, bound));
        }
        let place = place - impls.len();
        let blanket = self.blanket(bound);
        if let Some(rule) = blanket.get(place) {
            return Some(Some(rule));
        }
        if place == blanket.len() {
            return Some(self.by_fields(bound, constructor));
        }
        None
    }

    /// How the trait asks what it needs.
    pub fn kind(&self, bound: usize) -> PathKind
        ensures { result ≡ kind_of self.now bound }
    {
        match self.traits.get(bound) {
            Some(known) => known.kind,
            None => PathKind::Inductive,
        }
    }
}

// The rule of an impl, if it is one of the trait.
fn rule_of(listed: &Listed, bound: usize) -> Option<&Rule>
    ensures { option_copied result ≡ impl_rule bound listed.now }
{
    if listed.bound == bound {
        listed.rule.as_ref()
    } else {
        None
    }
}

impl Bound {
    /// The trait that is asked for, where a goal of this one asks.
    pub fn for_goal(self, asking: usize) -> usize
        ensures { result ≡ bound_of asking self }
    {
        match self {
            Bound::Same => asking,
            Bound::Trait(bound) => bound,
        }
    }
}
