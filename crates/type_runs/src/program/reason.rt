//! Why a type is not below another: a shortest way from the pair to one that fails by itself.
ghost use Rattle.std.specs.Prelude.{◌≡◌, ◌<◌, Contains, IfOk, OnOk};
ghost use Rattle.structural_types.specs.Asked.{declared_in};
ghost use Rattle.type_order.specs.Rule.{NeedsAll, pairs_of};
ghost use Rattle.type_order.specs.Subtypes.{IsBelow, forms_of};
ghost use Rattle.type_runs.specs.Search.{AreCovered, ComesFrom, GoesOn, IsAt, IsSearch, count_in, types_in};
ghost use Rattle.type_texts.specs.Reasons.{Fails, IsReason, Leads};
ghost use Rattle.type_texts.specs.Table.{forms_in};

use delegate_parts::{Lends, Outcome};
use search_parts::context::{Fault, NoMemory};
use std::alloc::Global;
use std::collections::HashSet;
use structural_types::Subtyping;
use type_order::{Pair, Types};
use type_texts::TypeTable;
use type_texts::reasons::{End, Step, end_of, step_at, write_end, write_way};

/// A pair of which the left type is not below the right one, and the step by which it was found.
#[derive(Clone, Copy)]
struct Found {
    pair: Pair,
    from: usize,
    step: Step,
}

/// The pairs that were found, the nearest first.
#[derive(Drop)]
struct Search<'a> {
    types: &'a Types,
    found: Vec<Found>,
    seen: HashSet<Pair>,
}

/// The reason why the left type of the pair is not below the right one, as ` at tail.head: Text is not below Int`.
pub(super) fn reason_of<T: Lends<Types>>(
    alloc: Global,
    subtyping: &mut Subtyping<T>,
    table: &TypeTable,
    pair: Pair,
) -> Result<Vec<u8>, Fault<Pair, Outcome>>
    requires same_types { declared_in T.lent_by subtyping.old ≡ forms_in table.now }
    requires not_below { IsBelow (forms_in table.now) pair.left pair.right → ⊥ }
    ensures reason { IfOk result (λ reason. IsReason table.now pair reason.items) }
    ensures same_types { declared_in T.lent_by subtyping.new
        ≡ declared_in T.lent_by subtyping.old }
{
    let mut search = Search::new(alloc, table.types(), pair)?;
    for place in 0..usize::MAX {
        let Some(found) = search.found.get(place).copied() else {
            break;
        };
        if let Some(end) = end_of(search.types, found.pair) {
            return Ok(search.told(alloc, table, place, found.pair, end)?);
        }
        search.follow(subtyping, place, found.pair)?;
    }
    // It does not come to this: then all that was found would be below.
    Ok(Vec::new(alloc))
}

impl<'a> Search<'a> {
    // The search from this pair.
    fn new(alloc: Global, types: &'a Types, pair: Pair) -> Result<Search<'a>, NoMemory>
        requires not_below { IsBelow (forms_of types.now) pair.left pair.right → ⊥ }
        ensures ongoing { IfOk result (λ search. IsSearch search) }
        ensures first { IfOk result (λ search. IsAt search 0 pair) }
        ensures types { IfOk result (λ search. types_in search ≡ forms_of types.now) }
    {
        let mut search = Search {
            types,
            found: Vec::new(alloc),
            seen: HashSet::new(alloc),
        };
        search.note(pair, 0, Step::Alternative)?;
        Ok(search)
    }

    // Notes a pair that is not below.
    fn note(&mut self, pair: Pair, from: usize, step: Step) -> Result<(), NoMemory>
        requires ongoing { IsSearch self.old }
        requires not_below { IsBelow (types_in self.old) pair.left pair.right → ⊥ }
        requires linked { 0 < count_in self.old → ComesFrom self.old pair from step }
        ensures ongoing { OnOk result (IsSearch self.new) }
        ensures goes_on { OnOk result (GoesOn self.old self.new) }
        ensures noted { OnOk result (IsAt self.new (count_in self.old) pair) }
    {
        self.seen.insert(pair)?;
        self.found.push(Found { pair, from, step })?;
        Ok(())
    }

    // Looks at what is asked for a pair that was found, all of which is needed.
    fn follow<T: Lends<Types>>(
        &mut self,
        subtyping: &mut Subtyping<T>,
        place: usize,
        pair: Pair,
    ) -> Result<(), Fault<Pair, Outcome>>
        requires ongoing { IsSearch self.old }
        requires at { IsAt self.old place pair }
        requires of_these { declared_in T.lent_by subtyping.old ≡ types_in self.old }
        requires all { NeedsAll (types_in self.old) pair }
        ensures ongoing { OnOk result (IsSearch self.new) }
        ensures goes_on { OnOk result (GoesOn self.old self.new) }
        ensures covered { OnOk result
            (AreCovered self.new (Contains (pairs_of (types_in self.old) pair))) }
        ensures same_types { declared_in T.lent_by subtyping.new
            ≡ declared_in T.lent_by subtyping.old }
    {
        let types = self.types;
        for asked in 0..types.asked_count(pair) {
            if let Some(part) = types.asked(pair, asked) {
                self.look_at(subtyping, part, place, step_at(types, pair, asked))?;
            }
        }
        Ok(())
    }

    // Notes the pair if its left type is not below the right one and it is new.
    fn look_at<T: Lends<Types>>(
        &mut self,
        subtyping: &mut Subtyping<T>,
        pair: Pair,
        from: usize,
        step: Step,
    ) -> Result<(), Fault<Pair, Outcome>>
        requires ongoing { IsSearch self.old }
        requires linked { ComesFrom self.old pair from step }
        requires of_these { declared_in T.lent_by subtyping.old ≡ types_in self.old }
        ensures ongoing { OnOk result (IsSearch self.new) }
        ensures goes_on { OnOk result (GoesOn self.old self.new) }
        ensures covered { OnOk result (AreCovered self.new (λ part. part ≡ pair)) }
        ensures same_types { declared_in T.lent_by subtyping.new
            ≡ declared_in T.lent_by subtyping.old }
    {
        if self.seen.contains(&pair) {
            return Ok(());
        }
        if !subtyping.is_below(pair.left, pair.right)? {
            self.note(pair, from, step)?;
        }
        Ok(())
    }

    // The text of a reason: how the pair at this place fails, and the steps to it.
    fn told(
        &self,
        alloc: Global,
        table: &TypeTable,
        place: usize,
        pair: Pair,
        end: End,
    ) -> Result<Vec<u8>, NoMemory>
        requires ongoing { IsSearch self.now }
        requires of_these { types_in self.now ≡ forms_in table.now }
        requires at { IsAt self.now place pair }
        requires fails { Fails (types_in self.now) end pair }
        ensures { (first : Pair) → IsAt self.now 0 first →
            IfOk result (λ text. IsReason table.now first text.items) }
    {
        let mut text = Vec::new(alloc);
        let way = self.way_to(alloc, place)?;
        write_way(&mut text, table, way.as_slice())?;
        write_end(&mut text, table, pair, end)?;
        Ok(text)
    }

    // The steps to the pair at this place.
    fn way_to(&self, alloc: Global, place: usize) -> Result<Vec<Step>, NoMemory>
        requires ongoing { IsSearch self.now }
        requires within { place < count_in self.now }
        ensures { (first last : Pair) → IsAt self.now 0 first → IsAt self.now place last →
            IfOk result (λ way. Leads (types_in self.now) way.items first last) }
    {
        let mut way = Vec::new(alloc);
        let mut at = place;
        while at > 0 {
            let found = self.found[at];
            way.push(found.step)?;
            at = found.from;
        }
        way.reverse();
        Ok(way)
    }
}
