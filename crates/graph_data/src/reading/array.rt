//! Arrays of values that are spelled one after the other.

ghost use Rattle.std.specs.Prelude.{◌≡◌, All, IfErr, IfOk, List, map, ℕ};
ghost use Rattle.json.specs.Token.{Token as SpecToken};
ghost use Rattle.graph_data.specs.Ends.{Parts};
ghost use Rattle.graph_data.specs.Below.{names_of};
ghost use Rattle.graph_data.specs.Data.{array_tokens, left_in, member_tokens, Spells};
ghost use Rattle.graph_data.specs.Fault.{StopsUnless};

use crate::fault::DataFault;
use crate::reading::source::Source;
use rule_tables::Rules;
use std::alloc::Global;

/// What an array has.
pub(crate) trait Item: Drop {
    /// What of it is spelled: all but where its lists lie in memory.
    ghost Plain: { Type 0 };

    ghost plain: { Self → Plain };

    /// The tokens that spell it, by the names of goals.
    ghost spelled: { List (List ℕ) → Plain → List SpecToken → List SpecToken };

    /// What holds of it where it was read.
    ghost is_right: { List (List ℕ) → Plain → Type 0 };

    /// Reads one.
    fn read(alloc: Global, source: &mut Source<'_>, rules: &Rules) -> Result<Self, DataFault>
        ensures spelled { IfOk result (λ item. left_in source.old
            ≡ spelled (names_of rules.now) (plain item) (left_in source.new)) }
        ensures right { IfOk result (λ item. is_right (names_of rules.now) (plain item)) }
        ensures refused { IfErr result (StopsUnless
            (Spells (is_right (names_of rules.now)) (spelled (names_of rules.now)) (left_in source.old))) };

    /// Its tokens tell where it ends.
    ghost parts: { (names : List (List ℕ)) → Parts (spelled names) };
}

/// The values of the array that stands under this key.
pub(crate) fn read_array<I: Item>(
    alloc: Global,
    source: &mut Source<'_>,
    rules: &Rules,
    wanted: &str,
) -> Result<Vec<I>, DataFault>
    ensures spelled { IfOk result (λ items. left_in source.old
        ≡ member_tokens wanted.now (array_tokens (I.spelled (names_of rules.now)))
        (map I.plain items.items) (left_in source.new)) }
    ensures right { IfOk result
        (λ items. All (I.is_right (names_of rules.now)) (map I.plain items.items)) }
    ensures refused { IfErr result (StopsUnless (Spells (All (I.is_right (names_of rules.now)))
        (member_tokens wanted.now (array_tokens (I.spelled (names_of rules.now)))) (left_in source.old))) }
{
    source.begin_array_at(wanted)?;
    let mut items = Vec::new(alloc);
    for _ in 0..u64::MAX {
        if source.is_end_of_array() {
            return Ok(items);
        }
        items.push(I::read(alloc, source, rules)?)?;
    }
    Err(DataFault::Memory)
}
