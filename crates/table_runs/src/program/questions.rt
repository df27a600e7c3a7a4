//! The questions of a table: each is asked, and told on a line.
ghost use Rattle.std.specs.Prelude.{◌≡◌, ◌≢◌, ◌⊎◌, ◌++◌, IfErr, IfOk, OnErr, OnOk};
ghost use Rattle.answer_lines.specs.Goals.{line_told};
ghost use Rattle.table_runs.specs.Answers.{AreAllTold, AreCountedStarts, AreFirstTold, IsAnswered};
ghost use Rattle.table_runs.specs.Below.{HasGraph, verdicts};
ghost use Rattle.line_texts.specs.Writing.{AppendsBeginning, Passes};
ghost use Rattle.table_runs.specs.Right.{AreShown, IsRightOutcome, SomeGraphShows};
ghost use Rattle.table_runs.specs.Told.{IsChecked, is_fine};

use crate::program::shown::ShownNodes;
use answer_lines::goals::{Check, Told, write_line};
use delegate_parts::{Builder, Outcome};
use line_texts::{Flush, write_bytes};
use program_ends::Stop;
use rule_tables::{BadLine, Goal, Rules};
use search_graph::graph::SearchGraph;
use search_graph::law::is_sound;
use search_graph::law::limits::price;
use search_parts::context::{Answer, Cx, Delegate, Fault, NoMemory};
use search_parts::global_cache::GlobalCache;
use search_parts::path::PathKind;
use std::alloc::Global;
use std::io::Write;

/// A write of its own for each line would take longer than a question that the cache answers, so this many bytes
/// wait for each other.
const ENOUGH: usize = 8000;

/// Room for the lines of a small table. It grows where more bytes wait.
const ROOM: usize = 512;

/// What is checked of the answers.
#[derive(Clone, Copy)]
pub enum Checks {
    /// The graph of each yes and no, as `run` does.
    EachGraph,
    /// No graph, as with `answer`.
    Nothing,
}

/// Answers each question on a graph of its own, over one cache, and writes its line. The result is whether none met
/// a fault and no graph was refused.
pub(super) fn answer_questions<X, D, W>(
    alloc: Global,
    cx: X,
    rules: &Rules,
    checks: Checks,
    out: &mut W,
) -> Result<bool, Stop<BadLine>>
where
    X: Cx<Input = Goal, Result = Outcome>,
    D: Delegate<Cx = X, ProofTreeBuilder = Builder>,
    W: Flush,
    // Where starts are those that the builder counts, all questions were asked in order, and their lines written.
    ensures told { AreCountedStarts D.starts D.noop → IfOk result (AreAllTold D.Delegate X.Cx
        ⟦<Goal as PartialEq>⟧.eq ⟦<Outcome as PartialEq>⟧.eq checks cx rules.now (W.contents out.old) (W.contents out.new)) }
    ensures flushed { OnOk result (W.is_flushed out.new) }

    // Else a beginning of the lines of those that were asked.
    ensures beginning { AreCountedStarts D.starts D.noop →
        OnErr result (AreFirstTold D.Delegate X.Cx
        ⟦<Goal as PartialEq>⟧.eq ⟦<Outcome as PartialEq>⟧.eq checks cx rules.now (W.contents out.old) (W.contents out.new)) }
    ensures fault { IfErr result (λ stop. (stop ≡ Stop.InputOrOutput) ⊎ (stop ≡ Stop.Memory)) }
{
    let mut waiting = Vec::with_capacity(alloc, ROOM)?;
    let mut cache = GlobalCache::<D>::new(alloc, cx);
    let mut graph = SearchGraph::<D>::new(alloc, 0);
    let mut shown = ShownNodes::new(alloc);
    let mut all_fine = true;
    let questions = rules.questions();
    for question in questions {
        let (depth, goal) = *question;
        let came = ask(
            alloc, &mut graph, &mut cache, depth, goal, checks, &mut shown,
        );
        is_sound(&cache);
        all_fine &= came_fine(came);
        tell(out, &mut waiting, rules.name(goal).unwrap_or(b""), came)?;
    }
    write_bytes(out, waiting.as_slice())?;
    out.flush_all()?;
    Ok(all_fine)
}

/// Whether no fault was met, and no graph refused.
pub fn came_fine(came: Result<Told, Fault<Goal, Outcome>>) -> bool
    ensures { result ≡ is_fine came }
{
    match came {
        Ok(told) => told.check != Check::Refused,
        Err(_) => false,
    }
}

// The line waits, until there are enough to be written.
fn tell<W: Write>(
    out: &mut W,
    waiting: &mut Vec<u8>,
    name: &[u8],
    came: Result<Told, Fault<Goal, Outcome>>,
) -> Result<(), Stop<BadLine>>
    ensures passed { OnOk result (Passes (W.contents out.old) (W.contents out.new)
        (waiting.old.items ++ line_told name.now came) waiting.new.items) }
    ensures beginning { OnErr result (AppendsBeginning (W.contents out.old) (W.contents out.new)
        (waiting.old.items ++ line_told name.now came)) }
    ensures fault { IfErr result (λ stop. (stop ≡ Stop.InputOrOutput) ⊎ (stop ≡ Stop.Memory)) }
{
    write_line(waiting, name, came).map_err(|_| Stop::Memory)?;
    if waiting.len() < ENOUGH {
        return Ok(());
    }
    write_bytes(out, waiting.as_slice())?;
    waiting.clear();
    Ok(())
}

/// Asks the goal at this depth, and checks the graph of a definite answer if that is wanted, unless `shown` has it. The search
/// graph may be any: it is as good as a new one, and has the memory of its last call. A fault leaves the cache and what was
/// shown as they were, but for what was found out on the way; where there is no memory for the check, that is a fault, too.
pub fn ask<X, D>(
    alloc: Global,
    graph: &mut SearchGraph<D>,
    cache: &mut GlobalCache<D>,
    depth: usize,
    goal: Goal,
    checks: Checks,
    shown: &mut ShownNodes,
) -> Result<Told, Fault<Goal, Outcome>>
where
    X: Cx<Input = Goal, Result = Outcome>,
    D: Delegate<Cx = X, ProofTreeBuilder = Builder>,
    // A graph that is handed out is accepted.
    ensures accepted { IfOk result (λ told. told.check ≢ Check.Refused) }

    // Where starts are those that the builder counts, this is the search's answer at this depth, with its frames.
    ensures answered { AreCountedStarts D.starts D.noop →
        IsAnswered D.Delegate X.Cx ⟦<Goal as PartialEq>⟧.eq ⟦<Outcome as PartialEq>⟧.eq
        checks cache.old (record { question = (depth, goal); came = result }) cache.new }

    // By the rules alone the answer is right; and it is accepted only if a graph shows it, which is then remembered.
    ensures right { IfOk result (λ told. IsRightOutcome X.Cx cache.old.cx goal told.outcome) }
    ensures shown { AreShown X.Cx cache.old.cx shown.old →
        IfOk result (λ told. told.check ≡ Check.Accepted →
        SomeGraphShows X.Cx cache.old.cx goal told.outcome) }
    ensures remembered { AreShown X.Cx cache.old.cx shown.old →
        AreShown X.Cx cache.old.cx shown.new }
{
    price::<D>();
    graph.renew(depth);
    let mut builder = Builder::new(true);
    let answer = graph.evaluate_goal(cache, goal, PathKind::Inductive, &mut builder)?;
    let outcome = answer.result;
    let check = check_answer::<X, D>(alloc, cache, goal, answer, checks, shown)?;
    Ok(Told {
        outcome,
        started: builder.started(),
        check,
    })
}

// What comes of checking the answer's graph, if that is wanted.
fn check_answer<X, D>(
    alloc: Global,
    cache: &GlobalCache<D>,
    goal: Goal,
    answer: Answer<Outcome>,
    checks: Checks,
    shown: &mut ShownNodes,
) -> Result<Check, NoMemory>
where
    X: Cx<Input = Goal, Result = Outcome>,
    D: Delegate<Cx = X, ProofTreeBuilder = Builder>,
    ensures checked { HasGraph (verdicts X.Cx) cache.now.nodes goal answer.result answer.node →
        IfOk result (IsChecked (verdicts X.Cx) checks answer.result) }

    // Whatever the answer rests on, it is accepted only if a graph shows it.
    ensures shown { AreShown X.Cx cache.now.cx shown.old →
        IfOk result (λ check. check ≡ Check.Accepted →
        SomeGraphShows X.Cx cache.now.cx goal answer.result) }
    ensures remembered { AreShown X.Cx cache.now.cx shown.old →
        AreShown X.Cx cache.now.cx shown.new }
{
    match (checks, answer.node) {
        (Checks::EachGraph, Some(node)) => {
            match shown.show::<X, D>(alloc, cache, goal, answer.result, node)? {
                true => Ok(Check::Accepted),
                false => Ok(Check::Refused),
            }
        }
        _ => Ok(Check::None),
    }
}
