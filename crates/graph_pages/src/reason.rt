//! Why an answer is neither yes nor no, in words.
ghost use Rattle.std.specs.Prelude.{◌≡◌, ◌↔◌, ◌⊎◌, Contains, IsTrue};
ghost use Rattle.graph_pages.specs.Reasons.{IsAskedBy, IsNamedByRules, asking_of};

use graph_texts::{Labelled, letter};
use rule_tables::rules::Asking;
use rule_tables::{Candidate, Goal, Outcome, Rules};
use search_context::path::PathKind;
use std::io;
use std::io::Write;
use watched_runs::{Cause, Cut, Reason};

/// Writes what the goal came to, and on a second line why this is neither yes nor no.
pub(crate) fn write_reason<W: Write>(
    out: &mut W,
    shown: Labelled<'_>,
    goal: Goal,
    outcome: Outcome,
    reason: Reason<Goal>,
) -> io::Result<()> {
    let name = shown.name(goal);
    let words = match by_rules(shown.rules, reason) {
        Reason::Cut(cut) => return write_cut(out, shown, name, outcome, cut),
        Reason::Runs => "had its most runs",
        Reason::Known => "was worked out before",
        Reason::Unnoted => "came to it for no reason that was noted",
    };
    writeln!(out, "{name} is {outcome}\n  {name} {words}")
}

// The reason, if the question that it names is one of a rule, as it is in each search.
fn by_rules(rules: &Rules, reason: Reason<Goal>) -> Reason<Goal>
    ensures named { IsNamedByRules rules.now result }
    ensures same { IsNamedByRules rules.now reason → result ≡ reason }
{
    match reason {
        Reason::Cut(cut) if !is_asked_by(rules, cut) => Reason::Unnoted,
        _ => reason,
    }
}

// Whether a rule of the goal that asked the question has it.
fn is_asked_by(rules: &Rules, cut: Cut<Goal>) -> bool
    ensures { IsTrue result ↔ IsAskedBy rules.now cut.by (asking_of cut) }
{
    let asking = Asking {
        kind: cut.kind,
        goal: cut.asked,
    };
    let candidates = rules.candidates(cut.by);
    for place in 0..candidates.count() {
        let Some(candidate) = candidates.get(place) else {
            unreachable!();
        };
        if has_question(&candidate, asking) {
            return true;
        }
    }
    false
}

fn has_question(rule: &Candidate<'_>, asking: Asking) -> bool
    ensures { IsTrue result ↔ Contains rule.now.questions asking }
{
    let questions = rule.questions();
    for question in questions {
        if *question == asking {
            return true;
        }
    }
    false
}

fn write_cut<W: Write>(
    out: &mut W,
    shown: Labelled<'_>,
    name: &str,
    outcome: Outcome,
    cut: Cut<Goal>,
) -> io::Result<()> {
    let letter = letter(cut.kind);
    let asked = shown.name(cut.asked);
    let by = shown.name(cut.by);
    let (why, named, end) = cause_words(cut.cause, asked);
    writeln!(
        out,
        "{name} is {outcome}\n  cut off at {letter}:{asked} of {by}{why}{named}{end}"
    )
}

// Why it was cut off, at the end of the line: what stands before the asked goal's name, this where it is named again, and
// what follows.
fn cause_words<'a>(cause: Cause, asked: &'a str) -> (&'static str, &'a str, &'static str) {
    match cause {
        Cause::Depth { or_runs: false } => (", which had no depth left", "", ""),
        Cause::Depth { or_runs: true } => (
            ", which had no depth left, or ",
            asked,
            " had its most runs before",
        ),
        Cause::Runs => (": ", asked, " had its most runs"),
        Cause::Cycle(kind) => (cycle_words(kind), "", ""),
        Cause::Known => (": ", asked, " came to maybe before"),
    }
}

// A cycle of another kind is answered maybe only in a further run, by what the last one came to.
fn cycle_words(kind: PathKind) -> &'static str {
    match kind {
        PathKind::Unknown => ": a cycle of unknown kind",
        PathKind::ForcedAmbiguity => ": a cycle of forced ambiguity",
        PathKind::Inductive | PathKind::Coinductive => ": a cycle that came to maybe before",
    }
}
