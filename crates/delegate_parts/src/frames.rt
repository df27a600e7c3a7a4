//! How goals are worked out: all that a delegate of outcomes is told of it.
ghost use Rattle.std.specs.Prelude.{◌≡◌, ◌≤◌, ◌<◌, ℕ, Bool, true, List, [], IfOk, OnOk};
ghost use Rattle.delegate_parts.specs.Below.{EndsIn, progress_after, questions_answered, CanTake, Steps};

use crate::NoScope;
use crate::builder::Builder;
use crate::goals::Outcomes;
use crate::outcome::Outcome;
use path_kinds::memory::NoMemory;
use path_kinds::path::PathKind;
use search_context::context::{Cx, Delegate, Reply, Request};
use std::marker::PhantomData;

/// How goals are worked out, by frames as those of `Delegate`.
///
/// The ghost members say what the frames do: `script` gives each request from the goal and the replies so far, and
/// `left` falls at each step from at most `width` on. By the laws at the end a result of yes (no) is proved (refuted)
/// by the questions that were answered yes (no) outside ignored candidates.
pub trait Frames: Sized {
    ghost use Rattle.search_context.specs.declared.context.Reply.{Reply};
    ghost use Rattle.search_context.specs.declared.context.Request.{Request};
    ghost use Rattle.delegate_parts.specs.declared.outcome.Outcome.{Outcome};

    /// The context of the goals, as `ContextOf<Self>`.
    type Cx: Outcomes;

    /// One run of a goal.
    type Frame: Drop;

    /// Whether a goal whose result is not stable after the most runs is answered overflow; else it is answered maybe.
    const MOST_RUNS_OVERFLOW: bool;

    ghost MOST_RUNS_OVERFLOW: { Bool };

    /// The request that follows these replies, of which the newest stands first.
    ghost script: { Self.Cx → Self.Cx.Input → List (Reply Outcome) → Request Self.Cx.Input Outcome };

    /// The frame is one of the goal that has had these replies.
    ghost stands: { Self.Frame → Self.Cx → Self.Cx.Input → List (Reply Outcome) → Type 0 };

    /// How many steps the frame has left at most.
    ghost left: { Self.Frame → ℕ };

    /// How many steps a frame has at most.
    ghost width: { Self.Cx → ℕ };

    /// A new frame of the goal.
    fn start(cx: Self::Cx, input: <Self::Cx as Cx>::Input) -> Result<Self::Frame, NoMemory>
        ensures frame { IfOk result (λ frame. stands frame cx input []) }
        ensures within { IfOk result (λ frame. left frame ≤ width cx) };

    /// The frame's next request. After a refusal nothing is known of the frame.
    fn step(
        frame: &mut Self::Frame,
        reply: Reply<Outcome>,
    ) -> Result<Request<<Self::Cx as Cx>::Input, Outcome>, NoMemory>
        requires can { CanTake stands script frame.old reply }
        ensures request { IfOk result (λ request.
            Steps stands script frame.old reply request frame.new) }
        ensures falls { OnOk result (left frame.new < left frame.old) };

    /// A result of yes rests on the questions that were answered yes.
    ghost yes_is_proved: { (cx : Self.Cx) (goal : Self.Cx.Input) (replies : List (Reply Outcome)) (r : Outcome) → EndsIn (script cx goal) replies r → Self.Cx.is_yes r ≡ true → Self.Cx.proves cx goal (questions_answered Self.Cx.is_yes (progress_after (script cx goal) replies)) };

    /// A result of no rests on the questions that were answered no.
    ghost no_is_refuted: { (cx : Self.Cx) (goal : Self.Cx.Input) (replies : List (Reply Outcome)) (r : Outcome) → EndsIn (script cx goal) replies r → Self.Cx.is_no r ≡ true → Self.Cx.refutes cx goal (questions_answered Self.Cx.is_no (progress_after (script cx goal) replies)) };
}

/// The delegate of goals that are worked out by these frames. A goal has the greater of 1 and `LIMIT` runs at most, and
/// the provisional cache may be used unless `PROVISIONAL` is 0. The first answers of cycles, overflow results and
/// ambiguity are those of outcomes, the builder counts frames, and no stored result is validated.
pub struct DelegateOf<F, const LIMIT: usize, const PROVISIONAL: usize> {
    frames: PhantomData<F>,
}

impl<F: Frames, const LIMIT: usize, const PROVISIONAL: usize> Delegate
    for DelegateOf<F, LIMIT, PROVISIONAL> {
    ghost use Rattle.std.proofs.Common.{rules};
    ghost use Rattle.std.specs.Prelude.{false, not, nat_eq, ◌^◌, ◌-◌};
    ghost use Rattle.delegate_parts.specs.Builder.{is_noop_of, started_in};
    ghost use Rattle.delegate_parts.specs.Laws as laws;
    ghost use Rattle.delegate_parts.specs.Outcome as outcomes;
    ghost use Rattle.delegate_parts.specs.declared.outcome.Outcome.TheVariants.{Maybe, Overflow};

    type Cx = F::Cx;

    type ValidationScope = NoScope;

    type ProofTreeBuilder = Builder;

    type Frame = F::Frame;

    const ENABLE_PROVISIONAL_CACHE: bool = PROVISIONAL != 0;

    const FIXPOINT_STEP_LIMIT: usize = LIMIT;

    const DIVIDE_AVAILABLE_DEPTH_ON_OVERFLOW: usize = 4;

    ghost ENABLE_PROVISIONAL_CACHE = { not (nat_eq PROVISIONAL 0) };

    ghost FIXPOINT_STEP_LIMIT = { LIMIT };

    ghost DIVIDE_AVAILABLE_DEPTH_ON_OVERFLOW = { 4 };

    ghost script = { F.script };

    ghost stands = { F.stands };

    ghost left = { F.left };

    ghost width = { F.width };

    ghost initial_result = { λ cx kind goal. outcomes.initial_outcome kind };

    ghost initial_kind = { outcomes.kind_of };

    ghost stack_overflow = { λ cx goal. Overflow };

    ghost fixpoint_overflow = { λ cx goal. outcomes.after_most_runs F.MOST_RUNS_OVERFLOW };

    ghost ambiguity = { outcomes.ambiguity_of };

    ghost propagated = { λ cx goal info. Maybe };

    ghost starts = { started_in };

    ghost counts = { true };

    ghost last = { 2 ^ 64 - 1 };

    ghost noop = { is_noop_of };

    ghost scoped = { λ cx goal. false };

    ghost yes_is_proved = { F.yes_is_proved };

    ghost no_is_refuted = { F.no_is_refuted };

    ghost initial_sort = { λ cx kind goal. laws.initial_sort_by F.Cx.same_verdicts kind };

    ghost recognised_sort = { laws.recognised_sort_by F.Cx.same_verdicts };

    ghost stack_overflow_is_neither = { λ cx goal. laws.overflow_by F.Cx.same_verdicts };

    ghost fixpoint_overflow_is_neither = { λ cx goal. laws.most_runs_by F.Cx.same_verdicts F.MOST_RUNS_OVERFLOW };

    ghost ambiguous_is_neither = { laws.ambiguous_by F.Cx.same_verdicts };

    ghost propagated_is_neither = { λ cx goal info. laws.maybe_by F.Cx.same_verdicts };

    ghost divides = { Prim.search rules };

    fn enter_validation_scope(_cx: F::Cx, _input: <F::Cx as Cx>::Input) -> Option<NoScope> {
        None
    }

    fn inspect_is_noop(inspect: &mut Builder) -> bool {
        inspect.is_noop()
    }

    fn initial_provisional_result(
        _cx: F::Cx,
        kind: PathKind,
        _input: <F::Cx as Cx>::Input,
    ) -> Outcome {
        Outcome::initial(kind)
    }

    fn is_initial_provisional_result(outcome: Outcome) -> Option<PathKind> {
        outcome.initial_kind()
    }

    fn stack_overflow_result(_cx: F::Cx, _input: <F::Cx as Cx>::Input) -> Outcome {
        Outcome::Overflow
    }

    fn fixpoint_overflow_result(_cx: F::Cx, _input: <F::Cx as Cx>::Input) -> Outcome {
        if F::MOST_RUNS_OVERFLOW {
            Outcome::Overflow
        } else {
            Outcome::Maybe
        }
    }

    fn is_ambiguous_result(outcome: Outcome) -> Option<()> {
        outcome.ambiguity()
    }

    fn propagate_ambiguity(
        _cx: F::Cx,
        _for_input: <F::Cx as Cx>::Input,
        _ambiguity_info: (),
    ) -> Outcome {
        Outcome::Maybe
    }

    fn start(
        cx: F::Cx,
        input: <F::Cx as Cx>::Input,
        inspect: &mut Builder,
    ) -> Result<F::Frame, NoMemory> {
        inspect.note_start();
        F::start(cx, input)
    }

    // It is called where goals are worked out, whether or not they are watched, and so not inlined unasked.
    #[inline(always)]
    fn step(
        frame: &mut F::Frame,
        reply: Reply<Outcome>,
        inspect: &mut Builder,
    ) -> Result<Request<<F::Cx as Cx>::Input, Outcome>, NoMemory>
        requires can { CanTake F.stands F.script frame.old reply }
        ensures request { IfOk result (λ request.
            Steps F.stands F.script frame.old reply request frame.new) }
        ensures falls { OnOk result (F.left frame.new < F.left frame.old) }
        ensures same_starts { started_in inspect.new ≡ started_in inspect.old }
        ensures same_noop { is_noop_of inspect.new ≡ is_noop_of inspect.old }
    {
        F::step(frame, reply)
    }

    fn start_replay(cx: F::Cx, input: <F::Cx as Cx>::Input) -> Option<F::Frame> {
        F::start(cx, input).ok()
    }

    fn step_replay(
        frame: &mut F::Frame,
        reply: Reply<Outcome>,
    ) -> Result<Request<<F::Cx as Cx>::Input, Outcome>, NoMemory>
        requires can { CanTake F.stands F.script frame.old reply }
        ensures request { IfOk result (λ request.
            Steps F.stands F.script frame.old reply request frame.new) }
        ensures falls { OnOk result (F.left frame.new < F.left frame.old) }
    {
        F::step(frame, reply)
    }
}
