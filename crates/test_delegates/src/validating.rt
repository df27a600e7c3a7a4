//! A delegate that has the stored results of some goals validated, and keeps a journal of that.

use crate::journal::Event;
use crate::watch::{NotesItsDrop, Watches};
use search_parts::context::{Cx, Delegate, NoMemory, Reply, Request, Verdict};
use search_parts::path::PathKind;
use std::marker::PhantomData;

/// A context beside what watches a search. Goals mean what they mean in the context.
#[derive(Clone, Copy)]
pub struct Watched<W, X> {
    pub cx: X,
    pub watch: W,
}

impl<W: Copy, X: Cx> Cx for Watched<W, X> {
    type Input = X::Input;

    type Result = X::Result;

    type AmbiguityInfo = X::AmbiguityInfo;

    type DepNodeIndex = X::DepNodeIndex;

    ghost proves = { λ watched. X.proves watched.cx };

    ghost refutes = { λ watched. X.refutes watched.cx };

    ghost is_yes = { X.is_yes };

    ghost is_no = { X.is_no };

    ghost token = { λ watched. X.token watched.cx };

    ghost proves_more = { λ watched. X.proves_more watched.cx };

    ghost refutes_more = { λ watched. X.refutes_more watched.cx };

    ghost clash = { λ watched. X.clash watched.cx };

    ghost one_sort = { X.one_sort };

    ghost same_input = { X.same_input };

    ghost same_result = { X.same_result };

    fn dep_node(self, input: X::Input) -> X::DepNodeIndex {
        self.cx.dep_node(input)
    }

    fn sort(self, outcome: X::Result) -> Verdict {
        self.cx.sort(outcome)
    }
}

/// A frame of `D`.
#[derive(Drop)]
pub struct WatchedFrame<W: Watches<<D::Cx as Cx>::Input, <D::Cx as Cx>::Result>, D: Delegate> {
    frame: D::Frame,
    end: NotesItsDrop<W, <D::Cx as Cx>::Input, <D::Cx as Cx>::Result>,
}

/// The delegate `D`, with a scope for each goal for which what watches the search gives one.
pub struct Validating<W, D> {
    watch: PhantomData<W>,
    delegate: PhantomData<D>,
}

impl<W: Watches<<D::Cx as Cx>::Input, <D::Cx as Cx>::Result>, D: Delegate> Delegate
    for Validating<W, D> {
    ghost use Rattle.std.specs.Prelude.{◌≡◌, ◌<◌, IfOk, OnOk};
    ghost use Rattle.search_context.specs.Delegate.{CanTake, Steps};
    ghost use Rattle.test_delegates.specs.declared.validating.Watched.{Watched};

    type Cx = Watched<W, D::Cx>;

    type ValidationScope = NotesItsDrop<W, <D::Cx as Cx>::Input, <D::Cx as Cx>::Result>;

    type ProofTreeBuilder = D::ProofTreeBuilder;

    type Frame = WatchedFrame<W, D>;

    const ENABLE_PROVISIONAL_CACHE: bool = D::ENABLE_PROVISIONAL_CACHE;

    const FIXPOINT_STEP_LIMIT: usize = D::FIXPOINT_STEP_LIMIT;

    const DIVIDE_AVAILABLE_DEPTH_ON_OVERFLOW: usize = D::DIVIDE_AVAILABLE_DEPTH_ON_OVERFLOW;

    ghost ENABLE_PROVISIONAL_CACHE = { D.ENABLE_PROVISIONAL_CACHE };

    ghost FIXPOINT_STEP_LIMIT = { D.FIXPOINT_STEP_LIMIT };

    ghost DIVIDE_AVAILABLE_DEPTH_ON_OVERFLOW = { D.DIVIDE_AVAILABLE_DEPTH_ON_OVERFLOW };

    ghost script = { λ watched. D.script watched.cx };

    ghost stands = { λ frame watched. D.stands frame.frame watched.cx };

    ghost left = { λ frame. D.left frame.frame };

    ghost width = { λ watched. D.width watched.cx };

    ghost initial_result = { λ watched. D.initial_result watched.cx };

    ghost initial_kind = { D.initial_kind };

    ghost stack_overflow = { λ watched. D.stack_overflow watched.cx };

    ghost fixpoint_overflow = { λ watched. D.fixpoint_overflow watched.cx };

    ghost ambiguity = { D.ambiguity };

    ghost propagated = { λ watched. D.propagated watched.cx };

    ghost starts = { D.starts };

    ghost counts = { D.counts };

    ghost last = { D.last };

    ghost noop = { D.noop };

    ghost scoped = { λ watched. W.validates watched.watch };

    ghost yes_is_proved = { λ watched. D.yes_is_proved watched.cx };

    ghost no_is_refuted = { λ watched. D.no_is_refuted watched.cx };

    ghost initial_sort = { λ watched. D.initial_sort watched.cx };

    ghost recognised_sort = { D.recognised_sort };

    ghost stack_overflow_is_neither = { λ watched. D.stack_overflow_is_neither watched.cx };

    ghost fixpoint_overflow_is_neither = { λ watched. D.fixpoint_overflow_is_neither watched.cx };

    ghost ambiguous_is_neither = { D.ambiguous_is_neither };

    ghost propagated_is_neither = { λ watched. D.propagated_is_neither watched.cx };

    ghost divides = { D.divides };

    fn enter_validation_scope(
        watched: Watched<W, D::Cx>,
        input: <D::Cx as Cx>::Input,
    ) -> Option<NotesItsDrop<W, <D::Cx as Cx>::Input, <D::Cx as Cx>::Result>> {
        if !watched.watch.is_validated(input) {
            return None;
        }
        watched.watch.note(input, Event::ScopeIsEntered);
        Some(NotesItsDrop {
            watch: watched.watch,
            goal: input,
            event: Event::ScopeIsDropped,
        })
    }

    fn inspect_is_noop(inspect: &mut D::ProofTreeBuilder) -> bool {
        D::inspect_is_noop(inspect)
    }

    fn initial_provisional_result(
        watched: Watched<W, D::Cx>,
        kind: PathKind,
        input: <D::Cx as Cx>::Input,
    ) -> <D::Cx as Cx>::Result {
        D::initial_provisional_result(watched.cx, kind, input)
    }

    fn is_initial_provisional_result(outcome: <D::Cx as Cx>::Result) -> Option<PathKind> {
        D::is_initial_provisional_result(outcome)
    }

    fn stack_overflow_result(
        watched: Watched<W, D::Cx>,
        input: <D::Cx as Cx>::Input,
    ) -> <D::Cx as Cx>::Result {
        D::stack_overflow_result(watched.cx, input)
    }

    fn fixpoint_overflow_result(
        watched: Watched<W, D::Cx>,
        input: <D::Cx as Cx>::Input,
    ) -> <D::Cx as Cx>::Result {
        D::fixpoint_overflow_result(watched.cx, input)
    }

    fn is_ambiguous_result(outcome: <D::Cx as Cx>::Result) -> Option<<D::Cx as Cx>::AmbiguityInfo> {
        D::is_ambiguous_result(outcome)
    }

    fn propagate_ambiguity(
        watched: Watched<W, D::Cx>,
        for_input: <D::Cx as Cx>::Input,
        ambiguity_info: <D::Cx as Cx>::AmbiguityInfo,
    ) -> <D::Cx as Cx>::Result {
        D::propagate_ambiguity(watched.cx, for_input, ambiguity_info)
    }

    fn start(
        watched: Watched<W, D::Cx>,
        input: <D::Cx as Cx>::Input,
        inspect: &mut D::ProofTreeBuilder,
    ) -> Result<WatchedFrame<W, D>, NoMemory> {
        if watched.watch.is_refused(input) {
            return Err(NoMemory);
        }
        let frame = D::start(watched.cx, input, inspect)?;
        watched.watch.note(input, Event::FrameStarts);
        let end = NotesItsDrop {
            watch: watched.watch,
            goal: input,
            event: Event::FrameIsDropped,
        };
        Ok(WatchedFrame { frame, end })
    }

    fn step(
        watched: &mut WatchedFrame<W, D>,
        reply: Reply<<D::Cx as Cx>::Result>,
        inspect: &mut D::ProofTreeBuilder,
    ) -> Result<Request<<D::Cx as Cx>::Input, <D::Cx as Cx>::Result>, NoMemory>
        requires can { CanTake (λ frame (within : Watched W D.Cx). D.stands frame.frame within.cx)
            (λ (within : Watched W D.Cx). D.script within.cx) watched.old reply }
        ensures request { IfOk result (λ request.
            Steps (λ frame (within : Watched W D.Cx). D.stands frame.frame within.cx)
            (λ (within : Watched W D.Cx). D.script within.cx) watched.old reply request
            watched.new) }
        ensures falls { OnOk result (D.left watched.new.frame < D.left watched.old.frame) }
        ensures same_starts { D.starts inspect.new ≡ D.starts inspect.old }
        ensures same_noop { D.noop inspect.new ≡ D.noop inspect.old }
    {
        note_reply(watched.end.watch, watched.end.goal, reply);
        D::step(&mut watched.frame, reply, inspect)
    }

    // No frame is one of a run that is replayed: the journal has each frame.
    fn start_replay(
        _watched: Watched<W, D::Cx>,
        _input: <D::Cx as Cx>::Input,
    ) -> Option<WatchedFrame<W, D>> {
        None
    }

    fn step_replay(
        _watched: &mut WatchedFrame<W, D>,
        _reply: Reply<<D::Cx as Cx>::Result>,
    ) -> Result<Request<<D::Cx as Cx>::Input, <D::Cx as Cx>::Result>, NoMemory>
        requires can { CanTake (λ frame (within : Watched W D.Cx). D.stands frame.frame within.cx)
            (λ (within : Watched W D.Cx). D.script within.cx) _watched.old _reply }
        ensures request { IfOk result (λ request.
            Steps (λ frame (within : Watched W D.Cx). D.stands frame.frame within.cx)
            (λ (within : Watched W D.Cx). D.script within.cx) _watched.old _reply request
            _watched.new) }
        ensures falls { OnOk result (D.left _watched.new.frame < D.left _watched.old.frame) }
    {
        Err(NoMemory)
    }
}

/// Writes a line if the goal's frame is answered.
fn note_reply<W: Watches<I, R>, I: Copy, R: Copy>(watch: W, goal: I, reply: Reply<R>) {
    if let Reply::Answer(outcome) = reply {
        watch.note(goal, Event::IsAnswered(outcome));
    }
}
