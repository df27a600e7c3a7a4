//! A delegate whose builder watches.
ghost use Rattle.std.specs.Prelude.{◌≡◌, ◌<◌, IfOk, OnOk};
ghost use Rattle.search_context.specs.Delegate.{CanTake, Steps};
ghost use Rattle.watched_runs.specs.Watch.{inner_of};

use crate::progress::Progress;
use crate::watch::{RunWatch, Watcher};
use delegate_parts::{Builder, Outcome};
use search_context::context::{Cx, Delegate, NoMemory, Reply, Request};
use std::marker::PhantomData;
use wrapped_delegates::{Wrapped, Wrapper};

/// The delegate `D`, with a builder that watches where answers are cut off. The context, the scripts, the results and the
/// limits are those of `D`, and so is what the cache is used for: goals come to what they come to with `D`, in as many runs.
pub type Watching<X, D, P> = Wrapped<D, WatchesRuns<X, P>>;

/// What such a delegate adds.
pub struct WatchesRuns<X, P> {
    cx: PhantomData<X>,
    progress: PhantomData<P>,
}

/// A frame, with what is watched of its run.
#[derive(Drop)]
pub struct WatchedFrame<F, I> {
    frame: F,
    run: RunWatch<I>,
}

impl<X, D, P> Wrapper<D> for WatchesRuns<X, P>
where
    X: Cx<Result = Outcome>,
    D: Delegate<Cx = X, ProofTreeBuilder = Builder>,
    P: Progress,
{
    type Builder = Watcher<X::Input, P>;

    type Frame = WatchedFrame<D::Frame, X::Input>;

    ghost builder_in = { inner_of };

    ghost frame_in = { λ watched. watched.frame };

    ghost noop = { λ watcher. D.noop (inner_of watcher) };

    fn inspect_is_noop(inspect: &mut Watcher<X::Input, P>) -> bool {
        D::inspect_is_noop(&mut inspect.inner)
    }

    fn start(
        cx: X,
        input: X::Input,
        inspect: &mut Watcher<X::Input, P>,
    ) -> Result<WatchedFrame<D::Frame, X::Input>, NoMemory> {
        let frame = D::start(cx, input, &mut inspect.inner)?;
        let run = inspect.note_start(input)?;
        Ok(WatchedFrame { frame, run })
    }

    fn step(
        frame: &mut WatchedFrame<D::Frame, X::Input>,
        reply: Reply<Outcome>,
        inspect: &mut Watcher<X::Input, P>,
    ) -> Result<Request<X::Input, Outcome>, NoMemory>
        requires can { CanTake D.stands D.script frame.old.frame reply }
        ensures request { IfOk result (λ request.
            Steps D.stands D.script frame.old.frame reply request frame.new.frame) }
        ensures falls { OnOk result (D.left frame.new.frame < D.left frame.old.frame) }
        ensures same_starts { D.starts (inner_of inspect.new) ≡ D.starts (inner_of inspect.old) }
        ensures same_noop { D.noop (inner_of inspect.new) ≡ D.noop (inner_of inspect.old) }
    {
        let run = inspect.note_reply(frame.run, reply);
        let request = D::step(&mut frame.frame, reply, &mut inspect.inner)?;
        frame.run = inspect.note_request(run, request)?;
        Ok(request)
    }

    fn start_replay(cx: X, input: X::Input) -> Option<WatchedFrame<D::Frame, X::Input>> {
        let frame = D::start_replay(cx, input)?;
        let run = RunWatch::new(input);
        Some(WatchedFrame { frame, run })
    }

    fn step_replay(
        frame: &mut WatchedFrame<D::Frame, X::Input>,
        reply: Reply<Outcome>,
    ) -> Result<Request<X::Input, Outcome>, NoMemory>
        requires can { CanTake D.stands D.script frame.old.frame reply }
        ensures request { IfOk result (λ request.
            Steps D.stands D.script frame.old.frame reply request frame.new.frame) }
        ensures falls { OnOk result (D.left frame.new.frame < D.left frame.old.frame) }
    {
        D::step_replay(&mut frame.frame, reply)
    }
}
