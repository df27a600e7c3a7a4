//! What a goal search is told of goals: the context, the delegate, requests and replies.
ghost use Rattle.std.specs.Prelude.{◌≡◌, ◌↔◌, ◌≤◌, ◌<◌, ◌+◌, ℕ, true, false, Bool, List, [], ◌∷◌, IsTrue, IsSome, IfSome, IfOk, OnOk, Ok, Some, None, Option};
ghost use Rattle.search_context.specs.Question.{Question, IsWithin, Overlap};
ghost use Rattle.search_context.specs.Run.{EndsIn, progress_after, questions_answered};
ghost use Rattle.search_context.specs.Delegate.{IsNeither, IsCycleResult, CanTake, Steps, CountsOne, frames_in, left_open};

use crate::path::PathKind;
pub use path_kinds::memory::NoMemory;
use std::hash::Hash;
use thiserror::Error;

/// What goals and their results are, and what they mean. Ports `Cx`.
///
/// The ghost members say what is meant, and the laws at the end what may be relied on: a goal that is
/// proved (refuted) by some questions is so by more; what proves a goal and what refutes it share a
/// question; no result is both yes and no; and `==` of goals and of results is equality.
pub trait Cx: Copy {
    /// A goal.
    type Input: Eq + Hash + Copy;

    /// What a goal is answered with.
    type Result: Eq + Copy;

    /// Why a result is ambiguous, to be handed on to other goals.
    type AmbiguityInfo: Copy;

    /// What a result's user may track it by.
    type DepNodeIndex: Copy;

    /// The goal holds where each of these questions does.
    ghost proves: { Self → Self.Input → List (Question Self.Input) → Type 0 };

    /// The goal does not hold where none of these questions does.
    ghost refutes: { Self → Self.Input → List (Question Self.Input) → Type 0 };

    /// The result says that its goal holds.
    ghost is_yes: { Self.Result → Bool };

    /// The result says that its goal does not hold.
    ghost is_no: { Self.Result → Bool };

    /// The token of a goal.
    ghost token: { Self → Self.Input → Self.DepNodeIndex };

    /// A token that the cache stores beside the goal's result.
    fn dep_node(self, input: Self::Input) -> Self::DepNodeIndex
        ensures { result ≡ token self input };

    /// The verdict of a result.
    fn sort(self, outcome: Self::Result) -> Verdict
        ensures yes { (result ≡ Verdict.Yes) ↔ IsTrue (is_yes outcome) }
        ensures no { (result ≡ Verdict.No) ↔ IsTrue (is_no outcome) };

    ghost proves_more: { (cx : Self) (goal : Self.Input) (some more : List (Question Self.Input)) → IsWithin some more → proves cx goal some → proves cx goal more };

    ghost refutes_more: { (cx : Self) (goal : Self.Input) (some more : List (Question Self.Input)) → IsWithin some more → refutes cx goal some → refutes cx goal more };

    ghost clash: { (cx : Self) (goal : Self.Input) (held failed : List (Question Self.Input)) → proves cx goal held → refutes cx goal failed → Overlap held failed };

    ghost one_sort: { (r : Self.Result) → is_yes r ≡ true → is_no r ≡ false };

    ghost same_input: { (x y : Self.Input) → Self.Input.eq x y ≡ true → x ≡ y };

    ghost same_result: { (x y : Self.Result) → Self.Result.eq x y ≡ true → x ≡ y };
}

/// A result with the token that it is tracked by. Ports `Cx::Tracked`.
#[derive(Drop)]
pub struct Tracked<R, T> {
    pub result: R,
    pub token: T,
}

/// What a frame asks for.
#[derive(Clone, Copy, Debug, PartialEq, Eq)]
pub enum Request<I, R> {
    /// The result of a goal, asked over a step of this kind.
    Evaluate(PathKind, I),
    /// A candidate begins.
    EnterCandidate,
    /// The open candidate ends.
    FinishCandidate,
    /// The finished candidate of this number no longer counts.
    Ignore(usize),
    /// The goal's result. The frame ends.
    Done(R),
}

/// What a frame is told.
#[derive(Clone, Copy, Debug, PartialEq, Eq)]
pub enum Reply<R> {
    /// The frame begins.
    Begin,
    /// The result of the goal that was asked.
    Answer(R),
    /// Anything else was done.
    Noted,
}

/// The verdict of a result: what it says of its goal.
#[derive(Clone, Copy, Debug, PartialEq, Eq)]
pub enum Verdict {
    /// The goal holds.
    Yes,
    /// The goal does not hold.
    No,
    /// Neither is known.
    Neither,
}

/// Why a call failed.
#[derive(Clone, Copy, Debug, PartialEq, Eq, Error)]
pub enum Fault<I, R> {
    /// A growth was refused, or a frame answered `NoMemory`.
    #[error("out of memory")]
    Memory,
    /// The cache holds another result for the goal in the same place.
    #[error("another result is stored")]
    Conflict { input: I, stored: R, found: R },
    /// A scope was given for the goal, and its result differs from the stored one.
    #[error("validation gave another result")]
    Validation { input: I, stored: R, found: R },
    /// A frame's request came out of order: a candidate begins while one is open (1); none is open that
    /// could end (2); the candidate to be ignored isn't finished (3), or is ignored already (4). Or a call
    /// on candidates came while no goal is under evaluation (5).
    #[error("request out of order: {0}")]
    Protocol(u8),
}

impl<I, R> From<NoMemory> for Fault<I, R> {
    ghost use Rattle.std.specs.Prelude.{◌≡◌};
    ghost use Rattle.search_context.specs.declared.context.Fault.TheVariants.{Memory};

    ghost from_gives = { λ error fault. fault ≡ Memory };

    fn from(_error: NoMemory) -> Fault<I, R> {
        Fault::Memory
    }
}

/// The number of a node in a cache's list.
#[derive(Clone, Copy, Debug, PartialEq, Eq, Hash)]
pub struct NodeId(pub usize);

/// A result, and for a definite one the node of its graph.
#[derive(Clone, Copy, Debug, PartialEq, Eq)]
pub struct Answer<R> {
    pub result: R,
    pub node: Option<NodeId>,
}

/// A question of a node's goal, and the place of the node that answers it.
#[derive(Clone, Copy, Debug, PartialEq, Eq)]
pub struct Edge<I> {
    pub kind: PathKind,
    pub input: I,
    pub target: usize,
}

/// One run of a goal: its replies, its result, and the questions that the result rests on. There are very many, so the
/// small fields stand together, which leaves no gap between them.
#[derive(Debug, Drop)]
pub struct Node<I, R> {
    pub replies: Vec<Reply<R>>,
    pub edges: Vec<Edge<I>>,
    pub input: I,
    pub result: R,
}

/// The graph of an answer, its root first.
#[derive(Drop)]
pub struct ProofGraph<X: Cx> {
    pub nodes: Vec<Node<X::Input, X::Result>>,
}

/// How goals are worked out: by frames. A frame is started, stepped with `Reply::Begin`, and then makes one
/// request after another, each of which is replied to, until it gives its result by `Request::Done`. Ports
/// `Delegate`, whose `compute_goal` calls back into the graph.
///
/// The ghost members say what the frames do: `script` gives each request from the goal and the replies so far, so
/// that the builder has no part in it, and `left` falls at each step from at most `width` on. The laws at
/// the end tie results to what goals mean: a result of yes (no) is proved (refuted) by the questions that were
/// answered yes (no) outside ignored candidates; initial results have the verdict of their cycle's kind; and
/// overflow results and ambiguous ones are neither yes nor no.
pub trait Delegate: Sized {
    ghost use Rattle.search_context.specs.declared.context.Reply.{Reply};
    ghost use Rattle.search_context.specs.declared.context.Request.{Request};
    ghost use Rattle.search_context.specs.Below.{PathKind};

    type Cx: Cx;

    /// Held while a stored result is validated.
    type ValidationScope: Drop;

    /// Records how goals are worked out.
    type ProofTreeBuilder;

    /// One run of a goal.
    type Frame: Drop;

    /// Whether answers that rest on goals under evaluation are pushed into the provisional cache, and used.
    const ENABLE_PROVISIONAL_CACHE: bool;

    /// The most runs of one goal; 0 allows one, as 1 does.
    const FIXPOINT_STEP_LIMIT: usize;

    /// What a goal's depth is divided by for its next question, once it has met overflow; 2 at least.
    const DIVIDE_AVAILABLE_DEPTH_ON_OVERFLOW: usize;

    ghost ENABLE_PROVISIONAL_CACHE: { Bool };

    ghost FIXPOINT_STEP_LIMIT: { ℕ };

    ghost DIVIDE_AVAILABLE_DEPTH_ON_OVERFLOW: { ℕ };

    /// The request that follows these replies, of which the newest stands first.
    ghost script: { Self.Cx → Self.Cx.Input → List (Reply Self.Cx.Result) → Request Self.Cx.Input Self.Cx.Result };

    /// The frame is one of the goal that has had these replies.
    ghost stands: { Self.Frame → Self.Cx → Self.Cx.Input → List (Reply Self.Cx.Result) → Type 0 };

    /// How many steps the frame has left at most.
    ghost left: { Self.Frame → ℕ };

    /// How many steps a frame has at most.
    ghost width: { Self.Cx → ℕ };

    ghost initial_result: { Self.Cx → PathKind → Self.Cx.Input → Self.Cx.Result };

    ghost initial_kind: { Self.Cx.Result → Option PathKind };

    ghost stack_overflow: { Self.Cx → Self.Cx.Input → Self.Cx.Result };

    ghost fixpoint_overflow: { Self.Cx → Self.Cx.Input → Self.Cx.Result };

    ghost ambiguity: { Self.Cx.Result → Option Self.Cx.AmbiguityInfo };

    ghost propagated: { Self.Cx → Self.Cx.Input → Self.Cx.AmbiguityInfo → Self.Cx.Result };

    /// The frames that the builder knows to have started.
    ghost starts: { Self.ProofTreeBuilder → ℕ };

    /// Whether `start` counts each frame, up to `last`.
    ghost counts: { Bool };

    /// Where the count of frames ends.
    ghost last: { ℕ };

    /// The builder records nothing.
    ghost noop: { Self.ProofTreeBuilder → Bool };

    /// The goal's stored result is to be validated.
    ghost scoped: { Self.Cx → Self.Cx.Input → Bool };

    /// What the builder has seen of a call that works this goal out: these frames are open, the newest first, or none was
    /// started yet. Where a builder records, this ties the record to the frames; by default it says nothing.
    ghost sees: { Self.ProofTreeBuilder → Self.Cx.Input → Option (List Self.Frame) → Type 0 } = { λ _ _ _. Unit {0} };

    /// A scope, if the goal's stored result is to be validated.
    fn enter_validation_scope(
        cx: Self::Cx,
        input: <Self::Cx as Cx>::Input,
    ) -> Option<Self::ValidationScope>
        ensures { IsSome result ↔ IsTrue (scoped cx input) };

    /// Whether the builder records nothing.
    fn inspect_is_noop(inspect: &mut Self::ProofTreeBuilder) -> bool
        ensures value { result ≡ noop inspect.old }
        ensures same_noop { noop inspect.new ≡ noop inspect.old }
        ensures same_starts { starts inspect.new ≡ starts inspect.old }
        ensures seen { (goal : Self.Cx.Input) (frames : Option (List Self.Frame)) → sees inspect.old goal frames
            → sees inspect.new goal frames };

    /// What a goal's cycles of this kind are answered with in its first run.
    fn initial_provisional_result(
        cx: Self::Cx,
        kind: PathKind,
        input: <Self::Cx as Cx>::Input,
    ) -> <Self::Cx as Cx>::Result
        ensures { result ≡ initial_result cx kind input };

    /// The kind of cycles whose initial result this is.
    fn is_initial_provisional_result(outcome: <Self::Cx as Cx>::Result) -> Option<PathKind>
        ensures { result ≡ initial_kind outcome };

    /// What a question of a goal without depth is answered with.
    fn stack_overflow_result(
        cx: Self::Cx,
        input: <Self::Cx as Cx>::Input,
    ) -> <Self::Cx as Cx>::Result
        ensures { result ≡ stack_overflow cx input };

    /// What a goal is answered with whose result is not stable after the most runs.
    fn fixpoint_overflow_result(
        cx: Self::Cx,
        input: <Self::Cx as Cx>::Input,
    ) -> <Self::Cx as Cx>::Result
        ensures { result ≡ fixpoint_overflow cx input };

    /// Why the result is ambiguous, if it is.
    fn is_ambiguous_result(
        outcome: <Self::Cx as Cx>::Result,
    ) -> Option<<Self::Cx as Cx>::AmbiguityInfo>
        ensures { result ≡ ambiguity outcome };

    /// The ambiguous result of another goal, for the same reason.
    fn propagate_ambiguity(
        cx: Self::Cx,
        for_input: <Self::Cx as Cx>::Input,
        ambiguity_info: <Self::Cx as Cx>::AmbiguityInfo,
    ) -> <Self::Cx as Cx>::Result
        ensures { result ≡ propagated cx for_input ambiguity_info };

    /// A new frame of the goal.
    fn start(
        cx: Self::Cx,
        input: <Self::Cx as Cx>::Input,
        inspect: &mut Self::ProofTreeBuilder,
    ) -> Result<Self::Frame, NoMemory>
        ensures frame { IfOk result (λ frame. stands frame cx input []) }
        ensures within { IfOk result (λ frame. left frame ≤ width cx) }
        ensures at_least { starts inspect.old ≤ starts inspect.new }
        ensures at_most { starts inspect.new ≤ starts inspect.old + 1 }
        ensures counted { counts ≡ true
            → OnOk result (CountsOne last (starts inspect.old) (starts inspect.new)) }
        ensures same_noop { noop inspect.new ≡ noop inspect.old }
        ensures seen { (frame : Self.Frame) → result ≡ Ok frame → (goal : Self.Cx.Input) (frames : Option (List Self.Frame))
            → sees inspect.old goal frames → (frames ≡ None → goal ≡ input)
            → sees inspect.new goal (Some (frame ∷ frames_in frames)) };

    /// The frame's next request. After a refusal nothing is known of the frame.
    fn step(
        frame: &mut Self::Frame,
        reply: Reply<<Self::Cx as Cx>::Result>,
        inspect: &mut Self::ProofTreeBuilder,
    ) -> Result<Request<<Self::Cx as Cx>::Input, <Self::Cx as Cx>::Result>, NoMemory>
        requires can { CanTake stands script frame.old reply }
        ensures request { IfOk result (λ request.
            Steps stands script frame.old reply request frame.new) }
        ensures falls { OnOk result (left frame.new < left frame.old) }
        ensures same_starts { starts inspect.new ≡ starts inspect.old }
        ensures same_noop { noop inspect.new ≡ noop inspect.old }
        ensures seen { (request : Request Self.Cx.Input Self.Cx.Result) → result ≡ Ok request → (goal : Self.Cx.Input)
            (below : List Self.Frame) → sees inspect.old goal (Some (frame.old ∷ below))
            → sees inspect.new goal (Some (left_open request (frame.new ∷ below))) };

    /// A frame of the goal for a run that is replayed beside the search: no builder sees it, and it counts as no run. A
    /// search of many runs replays some of them, to find out on how few answers their results may rest, and so holds
    /// far fewer nodes. `None` where there is no such frame, as by default: then each run rests on all its answers.
    fn start_replay(_cx: Self::Cx, _input: <Self::Cx as Cx>::Input) -> Option<Self::Frame>
        ensures frame { IfSome result (λ frame. stands frame _cx _input []) }
        ensures within { IfSome result (λ frame. left frame ≤ width _cx) }
    {
        None
    }

    /// The next request of a frame that is replayed. After a refusal nothing is known of the frame.
    fn step_replay(
        _frame: &mut Self::Frame,
        _reply: Reply<<Self::Cx as Cx>::Result>,
    ) -> Result<Request<<Self::Cx as Cx>::Input, <Self::Cx as Cx>::Result>, NoMemory>
        requires can { CanTake stands script _frame.old _reply }
        ensures request { IfOk result (λ request.
            Steps stands script _frame.old _reply request _frame.new) }
        ensures falls { OnOk result (left _frame.new < left _frame.old) }
    {
        Err(NoMemory)
    }

    /// A result of yes rests on the questions that were answered yes.
    ghost yes_is_proved: { (cx : Self.Cx) (goal : Self.Cx.Input) (replies : List (Reply Self.Cx.Result)) (r : Self.Cx.Result) → EndsIn (script cx goal) replies r → Self.Cx.is_yes r ≡ true → Self.Cx.proves cx goal (questions_answered Self.Cx.is_yes (progress_after (script cx goal) replies)) };

    /// A result of no rests on the questions that were answered no.
    ghost no_is_refuted: { (cx : Self.Cx) (goal : Self.Cx.Input) (replies : List (Reply Self.Cx.Result)) (r : Self.Cx.Result) → EndsIn (script cx goal) replies r → Self.Cx.is_no r ≡ true → Self.Cx.refutes cx goal (questions_answered Self.Cx.is_no (progress_after (script cx goal) replies)) };

    ghost initial_sort: { (cx : Self.Cx) (kind : PathKind) (goal : Self.Cx.Input) → IsCycleResult Self.Cx.is_yes Self.Cx.is_no kind (initial_result cx kind goal) };

    ghost recognised_sort: { (r : Self.Cx.Result) (kind : PathKind) → initial_kind r ≡ Some kind → IsCycleResult Self.Cx.is_yes Self.Cx.is_no kind r };

    ghost stack_overflow_is_neither: { (cx : Self.Cx) (goal : Self.Cx.Input) → IsNeither Self.Cx.is_yes Self.Cx.is_no (stack_overflow cx goal) };

    ghost fixpoint_overflow_is_neither: { (cx : Self.Cx) (goal : Self.Cx.Input) → IsNeither Self.Cx.is_yes Self.Cx.is_no (fixpoint_overflow cx goal) };

    ghost ambiguous_is_neither: { (r : Self.Cx.Result) (info : Self.Cx.AmbiguityInfo) → ambiguity r ≡ Some info → IsNeither Self.Cx.is_yes Self.Cx.is_no r };

    ghost propagated_is_neither: { (cx : Self.Cx) (goal : Self.Cx.Input) (info : Self.Cx.AmbiguityInfo) → IsNeither Self.Cx.is_yes Self.Cx.is_no (propagated cx goal info) };

    ghost divides: { 2 ≤ DIVIDE_AVAILABLE_DEPTH_ON_OVERFLOW };
}
