//! A delegate whose builder records.
ghost use Rattle.std.specs.Prelude.{◌≡◌, ◌≤◌, ◌<◌, ◌+◌, true, List, [], ◌∷◌, IfOk, Ok, OnOk, Some};
ghost use Rattle.search_context.specs.Delegate.{left_open};
ghost use Rattle.proof_trees.specs.Below.{CanTake, CountsOne, Steps};
ghost use Rattle.proof_trees.specs.Entries.{entry_of_reply, entry_of_request, entry_of_run, new_record, place_after};
ghost use Rattle.proof_trees.specs.Entries.{record_after};
ghost use Rattle.proof_trees.specs.Recorded.{HasSeen};
ghost use Rattle.proof_trees.specs.Recorder.{and_entry, entries_of, inner_of, IsPrefix, next_of, records, with_entry};

use crate::recorder::Recorder;
use crate::run_record::RunRecord;
use path_kinds::memory::NoMemory;
use search_context::context::{Cx, Delegate, Reply, Request};
use wrapped_delegates::{Wrapped, Wrapper};

/// The delegate `D`, with a builder that records what its frames do. The context, the scripts, the results and the limits
/// are those of `D`, so goals come to what they come to with `D`.
pub type Recording<D> = Wrapped<D, RecordsRuns>;

/// What such a delegate adds.
pub enum RecordsRuns {}

/// A frame, with what is remembered of its run.
#[derive(Drop)]
pub struct RecordedFrame<F, I, R> {
    frame: F,
    run: RunRecord<I, R>,
}

/// The builder of a delegate that records `D`.
pub type RecorderOf<D> = Recorder<
    <D as Delegate>::ProofTreeBuilder,
    <<D as Delegate>::Cx as Cx>::Input,
    <<D as Delegate>::Cx as Cx>::Result,
>;

/// Its frame.
pub type RecordedFrameOf<D> = RecordedFrame<
    <D as Delegate>::Frame,
    <<D as Delegate>::Cx as Cx>::Input,
    <<D as Delegate>::Cx as Cx>::Result,
>;

impl<D: Delegate> Wrapper<D> for RecordsRuns {
    ghost use Rattle.std.specs.Prelude.{◌&&◌, not};
    ghost use Rattle.proof_trees.specs.declared.recording.RecordedFrame.{RecordedFrame};

    type Builder = RecorderOf<D>;

    type Frame = RecordedFrameOf<D>;

    ghost builder_in = { inner_of };

    ghost frame_in = { λ recorded. recorded.frame };

    ghost noop = { λ recorder. D.noop (inner_of recorder) && not (records recorder) };

    ghost sees = { HasSeen };

    fn inspect_is_noop(inspect: &mut RecorderOf<D>) -> bool {
        let is_noop = D::inspect_is_noop(&mut inspect.inner);
        is_noop && !inspect.is_recording()
    }

    fn start(
        cx: D::Cx,
        input: <D::Cx as Cx>::Input,
        inspect: &mut RecorderOf<D>,
    ) -> Result<RecordedFrameOf<D>, NoMemory> {
        start_recorded::<D>(cx, input, inspect)
    }

    fn step(
        frame: &mut RecordedFrameOf<D>,
        reply: Reply<<D::Cx as Cx>::Result>,
        inspect: &mut RecorderOf<D>,
    ) -> Result<Request<<D::Cx as Cx>::Input, <D::Cx as Cx>::Result>, NoMemory>
        requires can { CanTake D.stands D.script frame.old.frame reply }
        ensures request { IfOk result (λ request.
            Steps D.stands D.script frame.old.frame reply request frame.new.frame) }
        ensures falls { OnOk result (D.left frame.new.frame < D.left frame.old.frame) }
        ensures same_starts { D.starts (inner_of inspect.new) ≡ D.starts (inner_of inspect.old) }
        ensures same_noop { (D.noop (inner_of inspect.new) && not (records inspect.new))
            ≡ (D.noop (inner_of inspect.old) && not (records inspect.old)) }
        ensures seen { (request : Request D.Cx.Input D.Cx.Result) → result ≡ Ok request → (goal : D.Cx.Input)
            (below : List (RecordedFrame D.Frame D.Cx.Input D.Cx.Result)) → HasSeen inspect.old goal (Some (frame.old ∷ below))
            → HasSeen inspect.new goal (Some (left_open request (frame.new ∷ below))) }
    {
        step_recorded::<D>(frame, reply, inspect)
    }

    // No frame is one of a run that is replayed: each run is recorded.
    fn start_replay(_cx: D::Cx, _input: <D::Cx as Cx>::Input) -> Option<RecordedFrameOf<D>> {
        None
    }

    fn step_replay(
        _frame: &mut RecordedFrameOf<D>,
        _reply: Reply<<D::Cx as Cx>::Result>,
    ) -> Result<Request<<D::Cx as Cx>::Input, <D::Cx as Cx>::Result>, NoMemory>
        requires can { CanTake D.stands D.script _frame.old.frame _reply }
        ensures request { IfOk result (λ request.
            Steps D.stands D.script _frame.old.frame _reply request _frame.new.frame) }
        ensures falls { OnOk result (D.left _frame.new.frame < D.left _frame.old.frame) }
    {
        Err(NoMemory)
    }
}

/// A new frame of `D`, whose run is recorded. After a refusal the entries are those that there were.
pub fn start_recorded<D: Delegate>(
    cx: D::Cx,
    input: <D::Cx as Cx>::Input,
    inspect: &mut RecorderOf<D>,
) -> Result<RecordedFrameOf<D>, NoMemory>
    // The frame and the builder are those of `D`.
    ensures frame { IfOk result (λ recorded. D.stands recorded.frame cx input []) }
    ensures within { IfOk result (λ recorded. D.left recorded.frame ≤ D.width cx) }
    ensures at_least { D.starts (inner_of inspect.old) ≤ D.starts (inner_of inspect.new) }
    ensures at_most { D.starts (inner_of inspect.new) ≤ D.starts (inner_of inspect.old) + 1 }
    ensures counted { D.counts ≡ true → OnOk result
        (CountsOne D.last (D.starts (inner_of inspect.old)) (D.starts (inner_of inspect.new))) }
    ensures same_noop { D.noop (inner_of inspect.new) ≡ D.noop (inner_of inspect.old) }

    // The entries that there were stay and come first, and the run is recorded.
    ensures recording { records inspect.new ≡ records inspect.old }
    ensures first { IsPrefix (entries_of inspect.old) (entries_of inspect.new) }
    ensures entries { OnOk result (entries_of inspect.new
        ≡ with_entry inspect.old (Some (entry_of_run (new_record input (next_of inspect.old))))) }
    ensures run { IfOk result (λ recorded. recorded.run ≡ new_record input (next_of inspect.old)) }
    ensures next { next_of inspect.new ≡ next_of inspect.old }
{
    let frame = D::start(cx, input, &mut inspect.inner)?;
    let run = inspect.note_start(input)?;
    Ok(RecordedFrame { frame, run })
}

/// The next request of a frame of `D`, which is recorded, as is the answer to the last one if that was a question. After a
/// refusal the entries that there were stay and come first, and nothing is known of the frame.
pub fn step_recorded<D: Delegate>(
    frame: &mut RecordedFrameOf<D>,
    reply: Reply<<D::Cx as Cx>::Result>,
    inspect: &mut RecorderOf<D>,
) -> Result<Request<<D::Cx as Cx>::Input, <D::Cx as Cx>::Result>, NoMemory>
    requires can { CanTake D.stands D.script frame.old.frame reply }

    // The request and the builder are those of `D`.
    ensures request { IfOk result (λ request.
        Steps D.stands D.script frame.old.frame reply request frame.new.frame) }
    ensures falls { OnOk result (D.left frame.new.frame < D.left frame.old.frame) }
    ensures same_starts { D.starts (inner_of inspect.new) ≡ D.starts (inner_of inspect.old) }
    ensures same_noop { D.noop (inner_of inspect.new) ≡ D.noop (inner_of inspect.old) }

    // The entries that there were stay and come first.
    ensures recording { records inspect.new ≡ records inspect.old }
    ensures first { IsPrefix (entries_of inspect.old) (entries_of inspect.new) }

    // What is recorded is the answer to the last request, if that was a question, and then the new one.
    ensures entries { IfOk result (λ request. records inspect.old ≡ true → entries_of inspect.new
        ≡ and_entry (and_entry (entries_of inspect.old)
        (entry_of_reply frame.old.run frame.old.run.request reply))
        (entry_of_request frame.old.run request)) }
    ensures run { IfOk result (λ request. frame.new.run ≡ record_after frame.old.run request) }
    ensures next { IfOk result (λ request.
        next_of inspect.new ≡ place_after frame.old.run (next_of inspect.old) request) }
{
    inspect.note_reply(frame.run, reply)?;
    let request = D::step(&mut frame.frame, reply, &mut inspect.inner)?;
    inspect.note_request(frame.run, request)?;
    frame.run = frame.run.after(request);
    Ok(request)
}
