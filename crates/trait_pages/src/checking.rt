//! Graphs that are read as data, and checked by declarations.

mod data;
mod same_rules;

use crate::names::Names;
use crate::reading::{all_goals, declared_in};
use crate::stop::Stop;
use crate::text::{Text, sources_of};
pub use data::write_names;
use data::{Data, read_data};
use graph_data::reading::claims_of_text;
use graph_pages::check as check_page;
use same_rules::are_same_rules;
use std::alloc::Global;
use std::io::Write;
use trait_goals::Goals;
use trait_texts::{Declarations, Options, Source, Spelling};
use watched_runs::NoProgress;

/// Checks data that this program wrote, by the declarations of these texts: the rules in the data have to be theirs, and the
/// checker, which knows nothing of the search, says of each answer whether it accepts its graph. Whether none was refused.
pub fn check<W: Write>(
    alloc: Global,
    texts: &[Text<'_>],
    options: Options,
    file: &str,
    text: &[u8],
    out: &mut W,
) -> Result<bool, Stop> {
    let data = read_data(alloc, text)?;
    let mut goals = goals_named(alloc, &data, texts, options, file)?;
    compare_rules(alloc, &data, &mut goals)?;
    tell_judgements(alloc, &data, out)
}

// The goals that the data names, which have to be called so in the declarations, too.
fn goals_named(
    alloc: Global,
    data: &Data<'_>,
    texts: &[Text<'_>],
    options: Options,
    file: &str,
) -> Result<Goals, Stop> {
    let declared = read_with_names(alloc, data, texts, options, file)?;
    let (goals, spelling) = goals_of(alloc, data, declared)?;
    compare_names(alloc, data, &goals, &spelling)?;
    Ok(goals)
}

// What the texts declare, with a question for each of the names.
fn read_with_names<'a>(
    alloc: Global,
    data: &'a Data<'_>,
    texts: &'a [Text<'_>],
    options: Options,
    file: &'a str,
) -> Result<Declarations<'a>, Stop> {
    let mut sources = sources_of(alloc, texts)?;
    sources.push(Source {
        name: file.as_bytes(),
        text: data.questions.as_slice(),
    })?;
    declared_in(alloc, sources.as_slice(), options)
}

// The goals have to be called what the data calls them.
fn compare_names(
    alloc: Global,
    data: &Data<'_>,
    goals: &Goals,
    spelling: &Spelling<'_>,
) -> Result<(), Stop> {
    if are_named(alloc, data, goals, spelling)? {
        Ok(())
    } else {
        Err(refusal(alloc, b"a goal has another name than in the declarations"))
    }
}

// The rules in the data have to be those of the declarations.
fn compare_rules(alloc: Global, data: &Data<'_>, goals: &mut Goals) -> Result<(), Stop> {
    let claims = claims_of_text(alloc, data.page)?;
    if are_same_rules(alloc, goals, data.names.len(), &claims)? {
        Ok(())
    } else {
        Err(refusal(alloc, b"the rules are not those of the declarations"))
    }
}

fn refusal(alloc: Global, reason: &[u8]) -> Stop {
    let mut text = Vec::new(alloc);
    match text.extend_from_slice(reason) {
        Ok(()) => Stop::Refused(text),
        Err(_) => Stop::Memory,
    }
}

// The goals that the data names, by the questions that stand last but for those about impls.
fn goals_of<'a>(
    alloc: Global,
    data: &Data<'_>,
    declared: Declarations<'a>,
) -> Result<(Goals, Spelling<'a>), Stop> {
    let Declarations {
        rules,
        terms,
        questions,
        definitions,
        spelling,
        ..
    } = declared;
    let mut goals = Goals::new(alloc, rules, terms);
    let own = questions.len().saturating_sub(definitions);
    let before = own.saturating_sub(data.names.len());
    let questions = questions.as_slice().split_at(before).1;
    let _goals = all_goals(alloc, &mut goals, questions)?;
    Ok((goals, spelling))
}

// Whether the goals are those of the names, each by its number.
fn are_named(
    alloc: Global,
    data: &Data<'_>,
    goals: &Goals,
    spelling: &Spelling<'_>,
) -> Result<bool, Stop> {
    let names = Names {
        goals,
        spelling,
        are_full: true,
    };
    let mut spelled = Vec::new(alloc);
    for (goal, name) in data.names.iter().enumerate() {
        spelled.clear();
        names.write(alloc, &mut spelled, goal)?;
        if spelled.as_slice() != name.as_slice() {
            return Ok(false);
        }
    }
    Ok(goals.len() == data.names.len())
}

// Writes what the checker says, with the names in place of the numbers.
fn tell_judgements<W: Write>(alloc: Global, data: &Data<'_>, out: &mut W) -> Result<bool, Stop> {
    let mut judged = Vec::new(alloc);
    let mut told = Vec::new(alloc);
    let status = check_page(alloc, data.page, &mut judged, &mut told, NoProgress);
    for line in judged.as_slice().split(|byte| *byte == b'\n') {
        let Some((number, said)) = parts_of(line) else {
            continue;
        };
        if let Some(name) = data.names.get(number) {
            out.write_all(name.as_slice())?;
            out.write_all(said)?;
            out.write_all(b"\n")?;
        }
    }
    out.flush()?;
    match status {
        0 => Ok(true),
        1 => Ok(false),
        _ => Err(Stop::Memory),
    }
}

// The number of the goal that the line tells of, and the rest of the line.
fn parts_of(line: &[u8]) -> Option<(usize, &[u8])> {
    let end = line.iter().position(|byte| *byte == b' ')?;
    let (number, said) = line.split_at_checked(end)?;
    let number: usize = std::str::from_utf8(number).ok()?.parse().ok()?;
    Some((number, said))
}
