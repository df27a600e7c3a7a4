//! The rows of rules, put goal by goal.
ghost use Rattle.std.specs.Prelude.{◌≡◌, ◌<◌, ◌^◌, ◌++◌, List, [], length, map, All, IfOk, OnOk};
ghost use Rattle.rule_tables.specs.DraftRule.{IsKnown};
ghost use Rattle.rule_tables.specs.Groups.{AreGroups, AreLinked, IsChain, row_of};
ghost use Rattle.rule_tables.specs.declared.draft.DraftRule.{DraftRule};

use crate::candidates::Row;
use crate::draft::DraftRule;
use search_context::context::NoMemory;
use std::alloc::Global;

/// Which rule of a goal is the first one, and which comes next. The number of a rule is counted from the last rule of the
/// text, which has 1, and 0 stands for none.
#[derive(Drop)]
struct Links {
    /// For each goal.
    firsts: Vec<u32>,
    /// For each rule, from the last one of the text on.
    nexts: Vec<u32>,
}

/// The rows of so many goals, those of each in the order of the text, and where each goal's rows start; behind the last
/// goal's start stands where its rows end.
pub(crate) fn grouped(
    alloc: Global,
    rules: &[DraftRule],
    goals: usize,
) -> Result<(Vec<Row>, Vec<u32>), NoMemory>
    requires known { All (IsKnown goals) rules.now }
    ensures { IfOk result (λ made. AreGroups rules.now goals made.1.items made.0.items) }
{
    let links = linked(alloc, rules, goals)?;
    let mut rows = Vec::with_capacity(alloc, rules.len())?;
    let mut starts = Vec::with_capacity(alloc, links.firsts.len() + 1)?;
    group(rules, &links, &mut rows, &mut starts)?;
    Ok((rows, starts))
}

// Puts the rows into lists that are empty, and owns nothing that a refusal would drop.
fn group(
    rules: &[DraftRule],
    links: &Links,
    rows: &mut Vec<Row>,
    starts: &mut Vec<u32>,
) -> Result<(), NoMemory>
    requires linked { AreLinked rules.now (length rules.now) (length links.now.firsts.items)
        links.now.firsts.items links.now.nexts.items }
    requires no_rows { rows.old.items ≡ [] }
    requires no_starts { starts.old.items ≡ [] }
    ensures { OnOk result (AreGroups rules.now (length links.now.firsts.items) starts.new.items
        rows.new.items) }
{
    starts.push(0)?;
    for first in &links.firsts {
        push_chain(rules, links.nexts.as_slice(), *first, rows)?;
        if rows.len() > u32::MAX as usize {
            return Err(NoMemory);
        }
        starts.push(rows.len() as u32)?;
    }
    Ok(())
}

fn linked(alloc: Global, rules: &[DraftRule], goals: usize) -> Result<Links, NoMemory>
    requires known { All (IsKnown goals) rules.now }
    ensures { IfOk result (λ links.
        AreLinked rules.now (length rules.now) goals links.firsts.items links.nexts.items) }
{
    if rules.len() > u32::MAX as usize {
        return Err(NoMemory);
    }
    let mut firsts = Vec::from_elem(alloc, 0u32, goals)?;
    let mut nexts = Vec::with_capacity(alloc, rules.len())?;
    link(rules, &mut firsts, &mut nexts)?;
    Ok(Links { firsts, nexts })
}

// Goes through the rules from the last one to the first, so that each comes before those of its goal that are linked.
fn link(rules: &[DraftRule], firsts: &mut Vec<u32>, nexts: &mut Vec<u32>) -> Result<(), NoMemory>
    requires few { length rules.now < 2 ^ 32 }
    requires known { All (IsKnown (length firsts.old.items)) rules.now }
    requires unlinked { AreLinked rules.now 0 (length firsts.old.items) firsts.old.items
        nexts.old.items }
    ensures { OnOk result (AreLinked rules.now (length rules.now) (length firsts.old.items)
        firsts.new.items nexts.new.items) }
{
    for behind in 0..rules.len() {
        let place = rules[rules.len() - 1 - behind].goal.place();
        nexts.push(firsts[place])?;
        firsts[place] = behind as u32 + 1;
    }
    Ok(())
}

// The rows of a goal's rules, from its first one on.
fn push_chain(
    rules: &[DraftRule],
    nexts: &[u32],
    first: u32,
    rows: &mut Vec<Row>,
) -> Result<(), NoMemory>
    requires chain { (chain : List DraftRule) × IsChain rules.now nexts.now first chain }
    ensures { OnOk result ((chain : List DraftRule) → IsChain rules.now nexts.now first chain →
        rows.new.items ≡ rows.old.items ++ map row_of chain) }
{
    let mut number = first as usize;
    while number > 0 {
        rows.push(rules[rules.len() - number].row)?;
        number = nexts[number - 1] as usize;
    }
    Ok(())
}
