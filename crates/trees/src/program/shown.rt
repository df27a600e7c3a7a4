//! How questions are answered, and shown.
ghost use Rattle.std.specs.Prelude.{◌≡◌, ◌⊎◌, ◌++◌, IfErr, IfOk, OnErr, OnOk};
ghost use Rattle.trees.specs.Shown.{AreAllShown, AreFirstShown, IsTreeShown, SeesRecords, tree_words};

use answer_lines::trees::write_answer;
use delegate_parts::{Builder, Outcome};
use line_texts::{Flush, write_bytes};
use program_ends::Stop;
use proof_trees::{Recorder, Words, write_entries};
use rule_tables::{BadLine, Goal, Rules};
use search_graph::graph::SearchGraph;
use search_parts::context::{Answer, Cx, Delegate, Fault};
use search_parts::global_cache::GlobalCache;
use std::alloc::Global;
use std::io;
use std::io::Write;
use table_words::TableWords;

/// Works out each question on its own, and writes its tree, what it came to, and an empty line. The result is whether none
/// met a fault.
pub(super) fn show_questions<X, D, W>(
    alloc: Global,
    cx: X,
    rules: &Rules,
    out: &mut W,
) -> Result<bool, Stop<BadLine>>
where
    X: Cx<Input = Goal, Result = Outcome>,
    D: Delegate<Cx = X, ProofTreeBuilder = Recorder<Builder, Goal, Outcome>>,
    W: Flush,
    requires sees { SeesRecords D.sees }

    // All questions were worked out in order, and their trees written.
    ensures told { IfOk result
        (AreAllShown D.Delegate X.Cx ⟦<Goal as PartialEq>⟧.eq ⟦<Outcome as PartialEq>⟧.eq
        cx rules.now (W.contents out.old) (W.contents out.new)) }
    ensures flushed { OnOk result (W.is_flushed out.new) }

    // Else a beginning of the trees of those that were worked out.
    ensures beginning { OnErr result
        (AreFirstShown D.Delegate X.Cx ⟦<Goal as PartialEq>⟧.eq ⟦<Outcome as PartialEq>⟧.eq
        cx rules.now (W.contents out.old) (W.contents out.new)) }
    ensures fault { IfErr result (λ stop. (stop ≡ Stop.InputOrOutput) ⊎ (stop ≡ Stop.Memory)) }
{
    let mut text = Vec::new(alloc);
    let mut all_fine = true;
    let questions = rules.questions();
    for question in questions {
        let (depth, goal) = *question;
        let is_fine = show::<X, D>(alloc, cx, rules, depth, goal, &mut text)?;
        all_fine &= is_fine;
        write_bytes(out, text.as_slice())?;
    }
    out.flush_all()?;
    Ok(all_fine)
}

// Works out the goal at this depth, and puts the question's lines into the text, which loses what it had. The result is
// whether no fault was met. The one error is want of memory for the text.
fn show<X, D>(
    alloc: Global,
    cx: X,
    rules: &Rules,
    depth: usize,
    goal: Goal,
    text: &mut Vec<u8>,
) -> Result<bool, Stop<BadLine>>
where
    X: Cx<Input = Goal, Result = Outcome>,
    D: Delegate<Cx = X, ProofTreeBuilder = Recorder<Builder, Goal, Outcome>>,
    requires sees { SeesRecords D.sees }
    ensures shown { IfOk result (λ fine.
        IsTreeShown D.Delegate X.Cx ⟦<Goal as PartialEq>⟧.eq ⟦<Outcome as PartialEq>⟧.eq
        cx rules.now (depth, goal) fine text.new.items) }
    ensures fault { IfErr result (λ stop. stop ≡ Stop.Memory) }
{
    let mut cache = GlobalCache::<D>::new(alloc, cx);
    let builder = Builder::new(true);
    let mut recorder = Recorder::new(alloc, builder, true);
    let came = SearchGraph::<D>::evaluate_root_goal_for_proof_tree(
        &mut cache,
        depth,
        goal,
        &mut recorder,
    );
    text.clear();
    match write_tree(text, rules, goal, &recorder, came) {
        Ok(()) => Ok(came.is_ok()),
        Err(_) => Err(Stop::Memory),
    }
}

// Appends the tree that was recorded, what the goal came to, and an empty line.
fn write_tree(
    text: &mut Vec<u8>,
    rules: &Rules,
    goal: Goal,
    recorder: &Recorder<Builder, Goal, Outcome>,
    came: Result<Answer<Outcome>, Fault<Goal, Outcome>>,
) -> io::Result<()>
    ensures { OnOk result (text.new.items ≡ text.old.items
        ++ tree_words rules.now goal (record { recorder = recorder.now; came = came })) }
{
    let words = TableWords { rules };
    write_entries(text, &words, recorder.entries())?;
    words.write_goal(text, goal)?;
    write_answer(text, came, recorder.inner().started())?;
    Ok(())
}
