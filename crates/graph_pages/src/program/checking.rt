//! How graphs that are read are checked.
ghost use Rattle.std.specs.Prelude.{◌≡◌, ◌⊎◌, IfErr, IfOk, OnOk};
ghost use Rattle.std.specs.Io.KnownBytes.{Appends};
ghost use Rattle.graph_pages.specs.Below.{verdicts};
ghost use Rattle.graph_pages.specs.Program.{EndsChecking, IsJudgedPage};
ghost use Rattle.graph_pages.specs.Told.{AreJudged, IsJudged, line_said};

use crate::answer::accepts;
use crate::stop::Stop;
use delegate_parts::Builder;
use graph_data::reading::{Claim, Claims, claims_of_text};
use line_texts::read_input;
use rule_tables::delegate::Table;
use rule_tables::{Goal, Outcome, Rules, TableDelegate};
use search_context::context::{Cx, Delegate, NoMemory, ProofGraph};
use std::alloc::Global;
use std::io::{Read, Write};
use std::{fmt, io};
use watched_runs::Progress;

/// Whether no graph was refused.
pub(super) fn check_input<R: Read, W: Write, P: Progress>(
    alloc: Global,
    input: &mut R,
    out: &mut W,
    progress: P,
) -> Result<bool, Stop>
    ensures told { IfOk result (IsJudgedPage ⟦<TableDelegate<'static, 8, 1> as Delegate>⟧
        ⟦<Table<&'static Rules> as Cx>⟧ (R.remaining input.old) (W.contents out.old) (W.contents out.new)) }
    ensures ended { IfErr result (EndsChecking (R.remaining input.old)
        (W.contents out.old) (W.contents out.new)) }
{
    let bytes = read_input(alloc, input)?;
    let Claims { rules, all } = claims_of_text(alloc, bytes.as_slice())?;
    check_claims::<Table<&Rules>, TableDelegate<'_, 8, 1>, W, P>(
        alloc,
        Table { lender: &rules },
        &rules,
        all,
        out,
        progress,
    )
}

// Judges each claim, and tells it on a line.
fn check_claims<X, D, W, P>(
    alloc: Global,
    cx: X,
    rules: &Rules,
    claims: Vec<Claim>,
    out: &mut W,
    mut progress: P,
) -> Result<bool, Stop>
where
    X: Cx<Input = Goal, Result = Outcome>,
    D: Delegate<Cx = X, ProofTreeBuilder = Builder>,
    W: Write,
    P: Progress,
    ensures judged { IfOk result (λ none_refused. AreJudged (verdicts X.Cx) (D.script cx) rules.now
        claims.items none_refused (W.contents out.old) (W.contents out.new)) }
    ensures fault { IfErr result (λ stop. (stop ≡ Stop.InputOrOutput) ⊎ (stop ≡ Stop.Memory)) }
{
    let mut none_refused = true;
    let mut done: usize = 0;
    for claim in claims {
        let (goal, outcome) = (claim.goal, claim.outcome);
        let said = judged::<X, D>(alloc, cx, claim)?;
        none_refused &= said.is_no_refusal();
        done = done.saturating_add(1);
        progress.note(done, 0);
        tell(out, rules, goal, outcome, said)?;
    }
    out.flush()?;
    Ok(none_refused)
}

/// What is said of a claim.
#[derive(Clone, Copy)]
pub(crate) enum Said {
    Accepted,
    Refused,
    /// It is a maybe or an overflow, and has no nodes.
    NoGraph,
}

impl Said {
    ghost use Rattle.graph_pages.specs.Told.{is_not_refused};

    fn is_no_refusal(self) -> bool
        ensures { result ≡ is_not_refused self }
    {
        match self {
            Said::Accepted | Said::NoGraph => true,
            Said::Refused => false,
        }
    }
}

impl fmt::Display for Said {
    ghost use Rattle.std.specs.Prelude.{Some};
    ghost use Rattle.graph_pages.specs.Told.{said_words};

    ghost output = { λ said. Some (said_words said) };

    fn fmt<W: fmt::Write>(&self, f: &mut fmt::Formatter<W>) -> fmt::Result {
        f.write_str(match self {
            Said::Accepted => "accepted",
            Said::Refused => "refused",
            Said::NoGraph => "without a graph",
        })
    }
}

fn judged<X, D>(alloc: Global, cx: X, claim: Claim) -> Result<Said, NoMemory>
where
    X: Cx<Input = Goal, Result = Outcome>,
    D: Delegate<Cx = X, ProofTreeBuilder = Builder>,
    ensures { IfOk result (IsJudged (verdicts X.Cx) (D.script cx) claim) }
{
    let Claim {
        goal,
        outcome,
        nodes,
    } = claim;
    if nodes.is_empty() && matches!(outcome, Outcome::Maybe | Outcome::Overflow) {
        return Ok(Said::NoGraph);
    }
    let graph = ProofGraph { nodes };
    match accepts::<X, D>(alloc, cx, &graph, goal, outcome)? {
        true => Ok(Said::Accepted),
        false => Ok(Said::Refused),
    }
}

fn tell<W: Write>(
    out: &mut W,
    rules: &Rules,
    goal: Goal,
    outcome: Outcome,
    said: Said,
) -> io::Result<()>
    ensures { OnOk result (Appends (W.contents out.old) (W.contents out.new)
        (line_said rules.now goal outcome said)) }
{
    out.write_all(rules.name(goal).unwrap_or(b""))?;
    writeln!(out, " {outcome} {said}")
}
