//! The goals under evaluation, each with the run of its frame.
ghost use Rattle.std.specs.Prelude.{◌≡◌, ℕ, ◌+◌, ◌^◌, ◌<◌, List, [], ◌∷◌, ◌++◌, length, false, Some, None, OnOk, OnErr, IfOk, IfErr, IfSome, is_some, map, reverse};
ghost use Rattle.std.specs.List.{list_any};
ghost use Rattle.std.specs.Option.{option_map};
ghost use Rattle.open_goals.specs.Below.{CanTake, position_of, verdicts, IsVerdict, IsRunFault, RunSteps, no_record};
ghost use Rattle.search_context.specs.Delegate.{left_open, SeesOn};
ghost use Rattle.goal_changes.specs.Frames.{frames_of};
ghost use Rattle.goal_changes.specs.Words.{CanStep, HasStepped, IsStepFault};

mod candidates;
mod nodes;

use crate::update::{
    cycle_head, note_depth, note_head, note_heads, note_nested_goals, take_nested_goals,
};
use cycle_heads::heads::CycleHeads;
use cycle_heads::usages::HeadUsages;
use heap_room::list_bytes;
use path_kinds::path::{PathKind, PathsToNested};
use run_records::progress::Progress;
use run_records::runs::{Received, Run, step_run};
use run_records::spare::SpareMemory;
use search_context::context::{Cx, Delegate, Fault, NoMemory, NodeId, Request};
use search_stack::depth::StackDepth;
use search_stack::result::{CacheData, EvaluationResult};
use search_stack::room::give_room_back;
use search_stack::stack::{Stack, StackEntry};
use std::alloc::Global;
use std::marker::Model;
use std::mem;

/// A goal that was popped, with its run.
#[derive(Drop)]
pub struct Popped<X: Cx, F: Drop> {
    pub entry: StackEntry<X>,
    pub run: Run<X, F>,
}

/// The goals under evaluation with their runs. Clauses see them with the newest first.
#[derive(Drop)]
pub struct OpenGoals<X: Cx, F: Drop> {
    stack: Stack<X>,
    runs: Vec<Run<X, F>>,
}

impl<X: Cx, F: Drop> Model for OpenGoals<X, F> {
    ghost use Rattle.std.specs.Prelude.{◌≡◌, List, [], length};
    ghost use Rattle.goal_changes.specs.Newest.{paired};
    ghost use Rattle.goal_changes.specs.OpenGoal.{OpenGoal};

    ghost Value = { List (OpenGoal X F X.Input X.Result X.AmbiguityInfo X.DepNodeIndex) };

    ghost view = { λ t. paired [] t.stack t.runs.items };

    ghost invariant = { λ t. length t.stack ≡ length t.runs.items };
}

impl<X: Cx, F: Drop> OpenGoals<X, F> {
    ghost use Rattle.goal_changes.specs.Newest.{newest, change_newest};
    ghost use Rattle.open_goals.specs.Below.{hit_of};
    ghost use Rattle.goal_changes.specs.Entries.{cycle_head};
    ghost use Rattle.goal_changes.specs.Items.{rerun_with, with_no_record, AnswersNewest};
    ghost use Rattle.goal_changes.specs.NestedGoals.{LeavesAnswer, NestsAnswer, NestsHead, NestsItself, NotesOverflow, TakesStored};

    /// No goal.
    pub fn new(alloc: Global) -> OpenGoals<X, F>
        ensures { result ≡ [] }
    {
        OpenGoals {
            stack: Stack::new(alloc),
            runs: Vec::new(alloc),
        }
    }

    /// How many goals are under evaluation.
    pub fn len(&self) -> usize
        ensures { result ≡ length self.now }
    {
        self.runs.len()
    }

    /// How many bytes of the heap the lists of goals and runs have room in, without what goals and runs hold.
    pub fn room_bytes(&self) -> usize {
        self.stack
            .room_bytes()
            .saturating_add(list_bytes(&self.runs))
    }

    /// The place of the goal, if it is under evaluation, counted from the first one up.
    pub fn find(&self, input: X::Input) -> Option<StackDepth>
        ensures found { option_map (λ d. d.0) result
            ≡ position_of X.Input.eq input (reverse (map (λ s. s.0) self.now)) }
        ensures present { is_some result ≡ list_any (λ s. X.Input.eq input s.0.input) self.now }
    {
        self.stack.find(input)
    }

    /// The entries of the goals, from the first one up.
    pub fn stack(&self) -> &Stack<X>
        ensures { result.now ≡ reverse (map (λ s. s.0) self.now) }
    {
        &self.stack
    }

    /// The entry of the newest goal.
    pub fn last_entry(&self) -> &StackEntry<X>
        requires { 0 < length self.now }
        ensures { option_map (λ s. s.0) (newest self.now) ≡ Some result.now }
    {
        self.stack.last()
    }

    /// Adds a goal that isn't under evaluation. A refusal leaves the goals as they were.
    pub fn push(&mut self, entry: StackEntry<X>, run: Run<X, F>) -> Result<(), NoMemory>
        requires absent { list_any (λ s. X.Input.eq entry.input s.0.input) self.old ≡ false }
        ensures ok { OnOk result (self.new ≡ (entry, run) ∷ self.old) }
        ensures err { OnErr result (self.new ≡ self.old) }
    {
        push_both(&mut self.stack, &mut self.runs, entry, run)
    }

    /// Pops the newest goal. Where there were very many, memory is given back.
    pub fn pop(&mut self) -> Popped<X, F>
        requires { 0 < length self.old }
        ensures { self.old ≡ (result.entry, result.run) ∷ self.new }
    {
        give_room_back(&mut self.runs);
        Popped {
            run: self.runs.pop().unwrap(),
            entry: self.stack.pop(),
        }
    }

    /// A question of the newest goal was refused. Where memory is, a part of that may be noted.
    ///
    /// The goal becomes one of its own nested goals. Where it is on the stack already, a goal that asks it closes
    /// a cycle instead of coming to the refused question, and may get another result; so what is stored of such
    /// a goal must not be used there.
    pub fn note_overflow(&mut self) -> Result<(), NoMemory>
        requires { 0 < length self.old }
        ensures { OnOk result (NotesOverflow X.Input.eq self.old self.new) }
    {
        let input = self.stack.last().input();
        let state = self.stack.last_mut();
        state.encountered_overflow = true;
        state.nested_goals.insert(input, PathsToNested::EMPTY)
    }

    /// The newest goal was answered over a step of this kind by a stored result. A refusal may leave a part
    /// of that noted.
    pub fn note_stored(&mut self, step: PathKind, stored: &CacheData<'_, X>) -> Result<(), NoMemory>
        requires some { 0 < length self.old }
        requires fits { stored.now.required_depth + 1 < 2 ^ 64 }
        ensures { OnOk result (TakesStored X.Input.eq step (hit_of stored.now) self.old self.new) }
    {
        let input = self.stack.last().input();
        let state = self.stack.last_mut();
        note_depth(state, stored.required_depth, stored.encountered_overflow);
        note_nested_goals(state, input, step, stored.nested_goals)
    }

    /// The newest goal was answered over a step of this kind by a provisional entry with these heads. A refusal
    /// may leave a part of that noted.
    pub fn note_provisional(
        &mut self,
        step: PathKind,
        heads: &CycleHeads,
        encountered_overflow: bool,
    ) -> Result<(), NoMemory>
        requires some { 0 < length self.old }
        ensures answered { OnOk result (AnswersNewest step 0 encountered_overflow heads.now
            self.old self.new) }
        ensures nested { OnOk result (NestsItself X.Input.eq self.old self.new) }
    {
        let parent = StackDepth::new(self.stack.len() - 1);
        let own = self.stack.last().input();
        let state = self.stack.last_mut();
        note_depth(state, 0, encountered_overflow);
        note_heads(state, parent, step, heads)?;
        state.nested_goals.insert(own, PathsToNested::EMPTY)
    }

    /// The newest goal was answered over a step of this kind. A refusal may leave a part of that noted. The nested
    /// goals are taken out of an answer that rests on goals, which is not stored.
    ///
    /// This comes before the frame gets the answer, since its very next request may end the candidate or the
    /// run, and both have to count the answer's heads.
    pub fn note_answer(
        &mut self,
        step: PathKind,
        answer: &mut EvaluationResult<X>,
    ) -> Result<(), NoMemory>
        requires some { 0 < length self.old }
        requires fits { answer.old.required_depth + 1 < 2 ^ 64 }
        ensures answered { OnOk result (AnswersNewest step answer.old.required_depth
            answer.old.encountered_overflow answer.old.heads self.old self.new) }
        ensures nested { OnOk result (NestsAnswer X.Input.eq step answer.old.nested_goals self.old
            self.new) }
        ensures left { LeavesAnswer answer.old answer.new }
    {
        let parent = StackDepth::new(self.stack.len() - 1);
        let input = self.stack.last().input();
        let state = self.stack.last_mut();
        note_depth(state, answer.required_depth, answer.encountered_overflow);
        note_heads(state, parent, step, &answer.heads)?;
        take_nested_goals(state, input, step, answer)
    }

    /// The newest goal asked by this step for a goal under evaluation, which closed a cycle of this kind.
    pub fn note_cycle(
        &mut self,
        step: PathKind,
        goal: X::Input,
        head: StackDepth,
        kind: PathKind,
    ) -> Result<(), NoMemory>
        requires { 0 < length self.old }
        ensures answered { OnOk result
            (AnswersNewest step 0 false ((head, cycle_head step kind) ∷ [])
            self.old self.new) }
        ensures nested { OnOk result (NestsHead X.Input.eq step goal self.old self.new) }
    {
        let used = cycle_head(step, kind);
        let parent = StackDepth::new(self.stack.len() - 1);
        let input = self.stack.last().input();
        let state = self.stack.last_mut();
        note_depth(state, 0, false);
        note_head(state, parent, step, head, used)?;
        state.nested_goals.insert(goal, PathsToNested::from(step))?;
        state.nested_goals.insert(input, PathsToNested::EMPTY)
    }

    /// The run of the newest goal.
    pub fn last_run(&self) -> &Run<X, F>
        requires { 0 < length self.now }
        ensures { option_map (λ s. s.1) (newest self.now) ≡ Some result.now }
    {
        &self.runs[self.runs.len() - 1]
    }

    /// Takes what the newest goal's run has done, and leaves the record of one that has done nothing.
    pub fn take_progress(
        &mut self,
        nothing: Progress<X::Input, X::Result>,
    ) -> Progress<X::Input, X::Result>
        requires some { 0 < length self.old }
        requires nothing { nothing ≡ no_record }
        ensures taken { option_map (λ s. s.1.progress) (newest self.old) ≡ Some result }
        ensures left { self.new ≡ change_newest with_no_record self.old }
    {
        let last = self.runs.len() - 1;
        mem::replace(&mut self.runs[last].progress, nothing)
    }

    /// Runs the newest goal again under this result, with a frame and a node for the new run. The answers
    /// of its cycles lead to `node` from now on.
    ///
    /// Its entry stays on the stack, with what all runs share: heads, required depth and nested goals. The
    /// provisional result rests on the heads of the run before, so they are heads of this run, too. Overflow
    /// starts anew, so that this run does not divide its depth for what an earlier one met. The usages start at
    /// zero and not at `None`: entries that did not use the goal's result are still there, and have to be
    /// rebased when it is done.
    pub fn run_again(
        &mut self,
        provisional_result: X::Result,
        node: Option<NodeId>,
        frame: F,
        own_node: NodeId,
        spare: &mut SpareMemory<X::Input, X::Result>,
    )
        requires some { 0 < length self.old }
        requires fits { IfSome (newest self.old) (λ s. s.1.finished_runs + 1 < 2 ^ 64) }
        ensures { self.new
            ≡ change_newest (rerun_with provisional_result node frame own_node) self.old }
    {
        let state = self.stack.last_mut();
        let met_overflow = state.encountered_overflow;
        state.provisional_result = Some(provisional_result);
        state.encountered_overflow = false;
        state.usages = Some(HeadUsages::default());
        state.candidate_usages = None;
        state.node = node;
        let last = self.runs.len() - 1;
        let run = &mut self.runs[last];
        run.frame = frame;
        run.node = own_node;
        run.finished_runs += 1;
        run.met_overflow_before |= met_overflow;
        spare.keep_usages(&mut run.candidates);
    }

    /// What the goals take their memory from.
    pub fn allocator(&self) -> Global {
        *self.runs.allocator()
    }
}

/// Adds a goal and its run. It knows nothing of runs, so that one which is refused is dropped as any value is.
fn push_both<X: Cx, R: Drop>(
    stack: &mut Stack<X>,
    runs: &mut Vec<R>,
    entry: StackEntry<X>,
    run: R,
) -> Result<(), NoMemory>
    requires absent { position_of X.Input.eq entry.input stack.old ≡ None }
    ensures ok { OnOk result ((stack.new ≡ stack.old ++ entry ∷ [])
        × (runs.new.items ≡ runs.old.items ++ run ∷ [])) }
    ensures err { OnErr result ((stack.new ≡ stack.old) × (runs.new.items ≡ runs.old.items)) }
{
    runs.reserve(1)?;
    stack.push(entry)?;
    runs.push_reserved(run);
    Ok(())
}

/// Gives the newest frame its reply, and answers its request. `Fault::Protocol` where that is out of order.
/// After a fault the goals may only be cleared.
pub fn step<D: Delegate>(
    goals: &mut OpenGoals<D::Cx, D::Frame>,
    cx: D::Cx,
    received: Received<<D::Cx as Cx>::Result>,
    spare: &mut SpareMemory<<D::Cx as Cx>::Input, <D::Cx as Cx>::Result>,
    inspect: &mut D::ProofTreeBuilder,
) -> Result<
    Request<<D::Cx as Cx>::Input, <D::Cx as Cx>::Result>,
    Fault<<D::Cx as Cx>::Input, <D::Cx as Cx>::Result>,
>
    requires some { 0 < length goals.old }
    requires can_step { CanStep D.Delegate D.Cx.Cx cx received.reply goals.old }
    ensures stepped { IfOk result (λ request.
        HasStepped D.Delegate D.Cx.Cx cx received request goals.old goals.new) }
    ensures fault { IfErr result (λ fault.
        IsStepFault D.Delegate D.Cx.Cx cx received goals.old fault) }
    ensures same_starts { D.starts inspect.new ≡ D.starts inspect.old }
    ensures same_noop { D.noop inspect.new ≡ D.noop inspect.old }
    ensures seen { IfOk result (λ request. SeesOn D.sees inspect.old inspect.new (frames_of goals.old)
        (left_open request (frames_of goals.new))) }
{
    let last = goals.runs.len() - 1;
    step_run::<D>(&mut goals.runs[last], cx, received, spare, inspect)
}
