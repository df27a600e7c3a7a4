//! The delegate around another one.
ghost use Rattle.std.specs.Prelude.{◌≡◌, ◌<◌, List, ◌∷◌, IfOk, Ok, OnOk, Some};
ghost use Rattle.search_context.specs.Delegate.{CanTake, Steps, left_open};

use crate::wrapper::Wrapper;
use path_kinds::memory::NoMemory;
use path_kinds::path::PathKind;
use search_context::context::{Cx, Delegate, Reply, Request};
use std::marker::PhantomData;

/// The delegate `D`, with the builders and frames of `W`.
pub struct Wrapped<D, W> {
    delegate: PhantomData<D>,
    wrapper: PhantomData<W>,
}

impl<D: Delegate, W: Wrapper<D>> Delegate for Wrapped<D, W> {
    type Cx = D::Cx;

    type ValidationScope = D::ValidationScope;

    type ProofTreeBuilder = W::Builder;

    type Frame = W::Frame;

    const ENABLE_PROVISIONAL_CACHE: bool = D::ENABLE_PROVISIONAL_CACHE;

    const FIXPOINT_STEP_LIMIT: usize = D::FIXPOINT_STEP_LIMIT;

    const DIVIDE_AVAILABLE_DEPTH_ON_OVERFLOW: usize = D::DIVIDE_AVAILABLE_DEPTH_ON_OVERFLOW;

    ghost ENABLE_PROVISIONAL_CACHE = { D.ENABLE_PROVISIONAL_CACHE };

    ghost FIXPOINT_STEP_LIMIT = { D.FIXPOINT_STEP_LIMIT };

    ghost DIVIDE_AVAILABLE_DEPTH_ON_OVERFLOW = { D.DIVIDE_AVAILABLE_DEPTH_ON_OVERFLOW };

    ghost script = { D.script };

    ghost stands = { λ frame. D.stands (W.frame_in frame) };

    ghost left = { λ frame. D.left (W.frame_in frame) };

    ghost width = { D.width };

    ghost initial_result = { D.initial_result };

    ghost initial_kind = { D.initial_kind };

    ghost stack_overflow = { D.stack_overflow };

    ghost fixpoint_overflow = { D.fixpoint_overflow };

    ghost ambiguity = { D.ambiguity };

    ghost propagated = { D.propagated };

    ghost starts = { λ builder. D.starts (W.builder_in builder) };

    ghost counts = { D.counts };

    ghost last = { D.last };

    ghost noop = { W.noop };

    ghost scoped = { D.scoped };

    ghost sees = { W.sees };

    ghost yes_is_proved = { D.yes_is_proved };

    ghost no_is_refuted = { D.no_is_refuted };

    ghost initial_sort = { D.initial_sort };

    ghost recognised_sort = { D.recognised_sort };

    ghost stack_overflow_is_neither = { D.stack_overflow_is_neither };

    ghost fixpoint_overflow_is_neither = { D.fixpoint_overflow_is_neither };

    ghost ambiguous_is_neither = { D.ambiguous_is_neither };

    ghost propagated_is_neither = { D.propagated_is_neither };

    ghost divides = { D.divides };

    fn enter_validation_scope(
        cx: D::Cx,
        input: <D::Cx as Cx>::Input,
    ) -> Option<D::ValidationScope> {
        D::enter_validation_scope(cx, input)
    }

    fn inspect_is_noop(inspect: &mut W::Builder) -> bool {
        W::inspect_is_noop(inspect)
    }

    fn initial_provisional_result(
        cx: D::Cx,
        kind: PathKind,
        input: <D::Cx as Cx>::Input,
    ) -> <D::Cx as Cx>::Result {
        D::initial_provisional_result(cx, kind, input)
    }

    fn is_initial_provisional_result(outcome: <D::Cx as Cx>::Result) -> Option<PathKind> {
        D::is_initial_provisional_result(outcome)
    }

    fn stack_overflow_result(cx: D::Cx, input: <D::Cx as Cx>::Input) -> <D::Cx as Cx>::Result {
        D::stack_overflow_result(cx, input)
    }

    fn fixpoint_overflow_result(cx: D::Cx, input: <D::Cx as Cx>::Input) -> <D::Cx as Cx>::Result {
        D::fixpoint_overflow_result(cx, input)
    }

    fn is_ambiguous_result(outcome: <D::Cx as Cx>::Result) -> Option<<D::Cx as Cx>::AmbiguityInfo> {
        D::is_ambiguous_result(outcome)
    }

    fn propagate_ambiguity(
        cx: D::Cx,
        for_input: <D::Cx as Cx>::Input,
        ambiguity_info: <D::Cx as Cx>::AmbiguityInfo,
    ) -> <D::Cx as Cx>::Result {
        D::propagate_ambiguity(cx, for_input, ambiguity_info)
    }

    fn start(
        cx: D::Cx,
        input: <D::Cx as Cx>::Input,
        inspect: &mut W::Builder,
    ) -> Result<W::Frame, NoMemory> {
        W::start(cx, input, inspect)
    }

    fn step(
        frame: &mut W::Frame,
        reply: Reply<<D::Cx as Cx>::Result>,
        inspect: &mut W::Builder,
    ) -> Result<Request<<D::Cx as Cx>::Input, <D::Cx as Cx>::Result>, NoMemory>
        requires can { CanTake (λ frame. D.stands (W.frame_in frame)) D.script frame.old reply }
        ensures request { IfOk result (λ request.
            Steps (λ frame. D.stands (W.frame_in frame)) D.script frame.old reply request frame.new) }
        ensures falls { OnOk result (D.left (W.frame_in frame.new) < D.left (W.frame_in frame.old)) }
        ensures same_starts { D.starts (W.builder_in inspect.new) ≡ D.starts (W.builder_in inspect.old) }
        ensures same_noop { W.noop inspect.new ≡ W.noop inspect.old }
        ensures seen { (request : Request D.Cx.Input D.Cx.Result) → result ≡ Ok request → (goal : D.Cx.Input)
            (below : List W.Frame) → W.sees inspect.old goal (Some (frame.old ∷ below))
            → W.sees inspect.new goal (Some (left_open request (frame.new ∷ below))) }
    {
        W::step(frame, reply, inspect)
    }

    fn start_replay(cx: D::Cx, input: <D::Cx as Cx>::Input) -> Option<W::Frame> {
        W::start_replay(cx, input)
    }

    fn step_replay(
        frame: &mut W::Frame,
        reply: Reply<<D::Cx as Cx>::Result>,
    ) -> Result<Request<<D::Cx as Cx>::Input, <D::Cx as Cx>::Result>, NoMemory>
        requires can { CanTake (λ frame. D.stands (W.frame_in frame)) D.script frame.old reply }
        ensures request { IfOk result (λ request.
            Steps (λ frame. D.stands (W.frame_in frame)) D.script frame.old reply request frame.new) }
        ensures falls { OnOk result (D.left (W.frame_in frame.new) < D.left (W.frame_in frame.old)) }
    {
        W::step_replay(frame, reply)
    }
}
