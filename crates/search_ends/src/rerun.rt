//! The newest goal is run again.
ghost use Rattle.std.specs.Prelude.{◌≡◌, OnOk};
ghost use Rattle.search_context.specs.Delegate.{SeesOn, without_newest};
ghost use Rattle.goal_changes.specs.Frames.{frames_of};
ghost use Rattle.search_ends.specs.Below.{KeepsEarlier, KeepsFinished, StartsFrame};
ghost use Rattle.search_ends.specs.Words.{MayRunAgain, RunsAgain};

use global_cache::GlobalCache;
use run_records::progress::Progress;
use search_context::context::{Cx, Delegate, NoMemory};
use search_rules::nodes::result_node;
use search_stack::depth::StackDepth;
use search_state::evaluation::Evaluation;

/// Runs the newest goal again, whose run came to this result. Provisional entries that used the goal's
/// provisional result are cleared.
pub(crate) fn run_again<D: Delegate>(
    evaluation: &mut Evaluation<D>,
    cache: &mut GlobalCache<D>,
    outcome: <D::Cx as Cx>::Result,
    inspect: &mut D::ProofTreeBuilder,
) -> Result<(), NoMemory>
    requires { MayRunAgain D.Delegate D.Cx.Cx D.Cx.Input.eq outcome cache.old evaluation.old }
    ensures reran { OnOk result (
        RunsAgain D.Delegate D.Cx.Cx D.Cx.Input.eq outcome cache.old evaluation.old cache.new
        evaluation.new) }
    ensures rest { evaluation.new ≡ record evaluation.old {
      goals = evaluation.new.goals;
      provisional = evaluation.new.provisional;
    } }
    ensures cache { cache.new ≡ record cache.old { nodes = cache.new.nodes } }
    ensures kept { KeepsFinished cache.old.nodes cache.new.nodes }
    ensures earlier { KeepsEarlier evaluation.old.goals cache.old.nodes cache.new.nodes }
    ensures starts { StartsFrame D.Delegate (OnOk result) inspect.old inspect.new }
    ensures seen { OnOk result (SeesOn D.sees inspect.old inspect.new
        (without_newest (frames_of evaluation.old.goals)) (frames_of evaluation.new.goals)) }
{
    // Entries that used the goal's result are cleared, since that is another one now. Those that merely have the
    // goal as a head stay: they are rebased when it is popped.
    evaluation
        .provisional
        .clear_for_rerun(StackDepth::new(evaluation.goals.len() - 1));
    let nothing = Progress::new(evaluation.goals.allocator());
    let progress = evaluation.goals.take_progress(nothing);
    let own_node = evaluation.goals.last_run().node;
    let entry = evaluation.goals.last_entry();
    let input = entry.input();
    let node = result_node::<D>(
        cache,
        input,
        &entry.state,
        own_node,
        &progress,
        outcome,
        &mut evaluation.lean,
    )?
    .or(entry.state.node);
    evaluation.spare.keep_progress(progress);
    let frame = D::start(cache.cx(), input, inspect)?;
    let own_node = cache.open_node(input)?;
    // The goal stays on the stack: its entry has the step, depths, heads and nested goals of all its runs.
    evaluation
        .goals
        .run_again(outcome, node, frame, own_node, &mut evaluation.spare);
    Ok(())
}
