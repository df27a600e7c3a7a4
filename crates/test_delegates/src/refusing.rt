//! Frames that are refused memory.
ghost use Rattle.std.specs.Prelude.{◌≡◌};

use search_parts::context::{Cx, Delegate, NoMemory, Reply, Request};
use wrapped_delegates::{Wrapped, Wrapper};

/// The delegate `D`, of whose frames one may be refused memory.
pub type Refusing<D> = Wrapped<D, RefusesCalls>;

/// What such a delegate adds.
pub enum RefusesCalls {}

/// The builder of `D`, and at which call of a frame memory is out.
#[derive(Drop)]
pub struct Refusals<B> {
    pub builder: B,
    /// The call of `start` or `step`, counted from here on, that answers `NoMemory`; none does if this is 0.
    pub call: u64,
}

impl<B> Refusals<B> {
    fn note_call(&mut self) -> Result<(), NoMemory>
        ensures { self.new.builder ≡ self.old.builder }
    {
        let is_refused = self.call == 1;
        self.call = self.call.saturating_sub(1);
        if is_refused { Err(NoMemory) } else { Ok(()) }
    }
}

impl<D: Delegate> Wrapper<D> for RefusesCalls {
    ghost use Rattle.std.specs.Prelude.{◌<◌, IfOk, OnOk};
    ghost use Rattle.search_context.specs.Delegate.{CanTake, Steps};

    type Builder = Refusals<D::ProofTreeBuilder>;

    type Frame = D::Frame;

    ghost builder_in = { λ refusals. refusals.builder };

    ghost frame_in = { λ frame. frame };

    ghost noop = { λ refusals. D.noop refusals.builder };

    fn inspect_is_noop(inspect: &mut Refusals<D::ProofTreeBuilder>) -> bool {
        D::inspect_is_noop(&mut inspect.builder)
    }

    fn start(
        cx: D::Cx,
        input: <D::Cx as Cx>::Input,
        inspect: &mut Refusals<D::ProofTreeBuilder>,
    ) -> Result<D::Frame, NoMemory> {
        inspect.note_call()?;
        D::start(cx, input, &mut inspect.builder)
    }

    fn step(
        frame: &mut D::Frame,
        reply: Reply<<D::Cx as Cx>::Result>,
        inspect: &mut Refusals<D::ProofTreeBuilder>,
    ) -> Result<Request<<D::Cx as Cx>::Input, <D::Cx as Cx>::Result>, NoMemory>
        requires can { CanTake D.stands D.script frame.old reply }
        ensures request { IfOk result
            (λ request. Steps D.stands D.script frame.old reply request frame.new) }
        ensures falls { OnOk result (D.left frame.new < D.left frame.old) }
        ensures same_starts { D.starts inspect.new.builder ≡ D.starts inspect.old.builder }
        ensures same_noop { D.noop inspect.new.builder ≡ D.noop inspect.old.builder }
    {
        inspect.note_call()?;
        D::step(frame, reply, &mut inspect.builder)
    }

    fn start_replay(cx: D::Cx, input: <D::Cx as Cx>::Input) -> Option<D::Frame> {
        D::start_replay(cx, input)
    }

    fn step_replay(
        frame: &mut D::Frame,
        reply: Reply<<D::Cx as Cx>::Result>,
    ) -> Result<Request<<D::Cx as Cx>::Input, <D::Cx as Cx>::Result>, NoMemory>
        requires can { CanTake D.stands D.script frame.old reply }
        ensures request { IfOk result
            (λ request. Steps D.stands D.script frame.old reply request frame.new) }
        ensures falls { OnOk result (D.left frame.new < D.left frame.old) }
    {
        D::step_replay(frame, reply)
    }
}
