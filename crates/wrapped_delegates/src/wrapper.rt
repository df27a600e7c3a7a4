//! What a delegate around another one adds to it.
ghost use Rattle.std.specs.Prelude.{◌≡◌, ◌≤◌, ◌<◌, ◌+◌, true, Bool, List, [], ◌∷◌, IfOk, IfSome, Ok, OnOk, None, Option, Some};
ghost use Rattle.search_context.specs.Delegate.{CanTake, CountsOne, Steps, frames_in, left_open};

use path_kinds::memory::NoMemory;
use search_context::context::{Cx, Delegate, Reply, Request};

/// A builder and frames around those of the delegate `D`. What each function ensures is what `Delegate` asks of it.
pub trait Wrapper<D: Delegate>: Sized {
    ghost use Rattle.search_context.specs.declared.context.Request.{Request};

    /// Records how goals are worked out, around a builder of `D`.
    type Builder;

    /// One run of a goal, around a frame of `D`.
    type Frame: Drop;

    /// The builder of `D`.
    ghost builder_in: { Self.Builder → D.ProofTreeBuilder };

    /// The frame of `D`.
    ghost frame_in: { Self.Frame → D.Frame };

    /// The builder records nothing.
    ghost noop: { Self.Builder → Bool };

    /// What the builder has seen of a call; by default it says nothing.
    ghost sees: { Self.Builder → D.Cx.Input → Option (List Self.Frame) → Type 0 } = { λ _ _ _. Unit {0} };

    /// Whether the builder records nothing.
    fn inspect_is_noop(inspect: &mut Self::Builder) -> bool
        ensures value { result ≡ noop inspect.old }
        ensures same_noop { noop inspect.new ≡ noop inspect.old }
        ensures same_starts { D.starts (builder_in inspect.new) ≡ D.starts (builder_in inspect.old) }
        ensures seen { (goal : D.Cx.Input) (frames : Option (List Self.Frame)) → sees inspect.old goal frames
            → sees inspect.new goal frames };

    /// A new frame of the goal.
    fn start(
        cx: D::Cx,
        input: <D::Cx as Cx>::Input,
        inspect: &mut Self::Builder,
    ) -> Result<Self::Frame, NoMemory>
        ensures frame { IfOk result (λ frame. D.stands (frame_in frame) cx input []) }
        ensures within { IfOk result (λ frame. D.left (frame_in frame) ≤ D.width cx) }
        ensures at_least { D.starts (builder_in inspect.old) ≤ D.starts (builder_in inspect.new) }
        ensures at_most { D.starts (builder_in inspect.new) ≤ D.starts (builder_in inspect.old) + 1 }
        ensures counted { D.counts ≡ true → OnOk result
            (CountsOne D.last (D.starts (builder_in inspect.old)) (D.starts (builder_in inspect.new))) }
        ensures same_noop { noop inspect.new ≡ noop inspect.old }
        ensures seen { (frame : Self.Frame) → result ≡ Ok frame → (goal : D.Cx.Input) (frames : Option (List Self.Frame))
            → sees inspect.old goal frames → (frames ≡ None → goal ≡ input)
            → sees inspect.new goal (Some (frame ∷ frames_in frames)) };

    /// The frame's next request. After a refusal nothing is known of the frame.
    fn step(
        frame: &mut Self::Frame,
        reply: Reply<<D::Cx as Cx>::Result>,
        inspect: &mut Self::Builder,
    ) -> Result<Request<<D::Cx as Cx>::Input, <D::Cx as Cx>::Result>, NoMemory>
        requires can { CanTake D.stands D.script (frame_in frame.old) reply }
        ensures request { IfOk result (λ request.
            Steps D.stands D.script (frame_in frame.old) reply request (frame_in frame.new)) }
        ensures falls { OnOk result (D.left (frame_in frame.new) < D.left (frame_in frame.old)) }
        ensures same_starts { D.starts (builder_in inspect.new) ≡ D.starts (builder_in inspect.old) }
        ensures same_noop { noop inspect.new ≡ noop inspect.old }
        ensures seen { (request : Request D.Cx.Input D.Cx.Result) → result ≡ Ok request → (goal : D.Cx.Input)
            (below : List Self.Frame) → sees inspect.old goal (Some (frame.old ∷ below))
            → sees inspect.new goal (Some (left_open request (frame.new ∷ below))) };

    /// A frame for a run that is replayed, which no builder sees, or `None` where no run is to be replayed.
    fn start_replay(cx: D::Cx, input: <D::Cx as Cx>::Input) -> Option<Self::Frame>
        ensures frame { IfSome result (λ frame. D.stands (frame_in frame) cx input []) }
        ensures within { IfSome result (λ frame. D.left (frame_in frame) ≤ D.width cx) };

    /// The next request of a frame that is replayed. After a refusal nothing is known of the frame.
    fn step_replay(
        frame: &mut Self::Frame,
        reply: Reply<<D::Cx as Cx>::Result>,
    ) -> Result<Request<<D::Cx as Cx>::Input, <D::Cx as Cx>::Result>, NoMemory>
        requires can { CanTake D.stands D.script (frame_in frame.old) reply }
        ensures request { IfOk result (λ request.
            Steps D.stands D.script (frame_in frame.old) reply request (frame_in frame.new)) }
        ensures falls { OnOk result (D.left (frame_in frame.new) < D.left (frame_in frame.old)) };
}
