//! What a goal's entry takes over from the answer to one of its questions.
ghost use Rattle.std.specs.Prelude.{◌≡◌, ◌<◌, ◌+◌, ◌^◌, OnOk, Some};
ghost use Rattle.goal_changes.specs.Words.{cycle_head, with_depth, with_nested_goals, with_used_head, TakesHeads, usages_at, without_head, CanIgnore, Covers, Ignores, LeavesAnswer, TakesNestedGoals};
ghost use Rattle.std.specs.Option.{IsSomeAnd};

use cycle_heads::candidates::CandidateHeadUsages;
use cycle_heads::heads::{CycleHead, CycleHeads};
use cycle_heads::usages::HeadUsages;
use path_kinds::path::{PathKind, PathsToNested};
use search_context::context::{Cx, NoMemory};
use search_stack::depth::StackDepth;
use search_stack::nested_goals::NestedGoals;
use search_stack::result::EvaluationResult;
use search_stack::stack::EntryState;

/// Notes how deep the goals below an answer went, and whether one of their questions was refused.
pub fn note_depth<X: Cx>(
    state: &mut EntryState<X>,
    required_depth: usize,
    encountered_overflow: bool,
)
    requires fits { required_depth + 1 < 2 ^ 64 }
    ensures { state.new ≡ with_depth state.old required_depth encountered_overflow }
{
    state.required_depth = state.required_depth.max(required_depth + 1);
    state.encountered_overflow |= encountered_overflow;
}

/// Notes the heads of an answer over a step in the state of the entry at `parent`. Ports a part of
/// `SearchGraph::update_parent_goal`.
pub fn note_heads<X: Cx>(
    state: &mut EntryState<X>,
    parent: StackDepth,
    step: PathKind,
    heads: &CycleHeads,
) -> Result<(), NoMemory>
    ensures { OnOk result (TakesHeads parent step heads.now state.old state.new) }
{
    state.heads.make_room(heads.as_slice().len())?;
    note_each_head(state, parent, step, heads)
}

fn note_each_head<X: Cx>(
    state: &mut EntryState<X>,
    parent: StackDepth,
    step: PathKind,
    heads: &CycleHeads,
) -> Result<(), NoMemory>
    ensures { OnOk result (TakesHeads parent step heads.now state.old state.new) }
{
    let mut guesses = Guesses::at_the_lowest();
    for (head, used) in heads.as_slice() {
        note_head_near(state, &mut guesses, parent, step, *head, *used)?;
    }
    Ok(())
}

/// Notes one head of an answer over a step: the entry's own goal, or another one on the stack. It counts
/// for the candidate that is open, too.
#[inline(always)]
pub fn note_head<X: Cx>(
    state: &mut EntryState<X>,
    parent: StackDepth,
    step: PathKind,
    head: StackDepth,
    used: CycleHead,
) -> Result<(), NoMemory>
    ensures { OnOk result (state.new ≡ with_used_head parent step head used state.old) }
{
    let mut guesses = Guesses::at_depth(head);
    note_head_near(state, &mut guesses, parent, step, head, used)
}

/// Where a head is looked for first among the heads, and among those that the open candidate used: behind the one that
/// was noted before it. An answer's heads rise, and most are there already, so that they are found without a search.
#[derive(Clone, Copy)]
struct Guesses {
    head: usize,
    candidate: usize,
}

impl Guesses {
    fn at_the_lowest() -> Guesses {
        Guesses {
            head: 0,
            candidate: 0,
        }
    }

    /// Where the head is if all goals below it are heads, too.
    fn at_depth(head: StackDepth) -> Guesses {
        Guesses {
            head: head.index(),
            candidate: head.index(),
        }
    }
}

#[inline(always)]
fn note_head_near<X: Cx>(
    state: &mut EntryState<X>,
    guesses: &mut Guesses,
    parent: StackDepth,
    step: PathKind,
    head: StackDepth,
    used: CycleHead,
) -> Result<(), NoMemory>
    ensures { OnOk result (state.new ≡ with_used_head parent step head used state.old) }
{
    if let Some(candidate) = &mut state.candidate_usages {
        guesses.candidate = candidate.note_usages_near(guesses.candidate, head, used.usages)?;
    }
    if head == parent {
        let mut usages = state.usages.unwrap_or_default();
        usages.add_usages_from_nested(used.usages);
        state.usages = Some(usages);
        return Ok(());
    }
    let paths = used.paths_to_head.extend_with(step);
    guesses.head = state
        .heads
        .insert_near(guesses.head, head, paths, used.usages)?;
    Ok(())
}

/// Takes away from the state of the entry at `parent` what a candidate used of the goals on the stack: of the
/// entry's own goal, and of its heads. Ports a part of `SearchGraph::ignore_candidate_head_usages`.
pub fn ignore_usages<X: Cx>(
    state: &mut EntryState<X>,
    parent: StackDepth,
    candidate: &CandidateHeadUsages,
)
    requires can { CanIgnore parent candidate.now state.old }
    ensures { Ignores parent candidate.now state.old state.new }
{
    for (head, usages) in candidate.as_slice() {
        ignore_head(state, parent, *head, *usages);
    }
}

/// Takes away what was counted of one head, or of the entry's own goal.
fn ignore_head<X: Cx>(
    state: &mut EntryState<X>,
    parent: StackDepth,
    head: StackDepth,
    usages: HeadUsages,
)
    requires counted { IsSomeAnd (usages_at parent state.old head)
        (λ counts. Covers counts usages) }
    ensures { state.new ≡ without_head parent head usages state.old }
{
    if head == parent {
        let mut own = state.usages.unwrap();
        own.ignore_usages(usages);
        state.usages = Some(own);
        return;
    }
    state.heads.ignore_usages(head, usages);
}

/// Notes the goals below an answer over a step in the state of the entry of `own`. Where there are any, the
/// goal itself is one of those from now on. Ports a part of `SearchGraph::update_parent_goal`.
pub fn note_nested_goals<X: Cx>(
    state: &mut EntryState<X>,
    own: X::Input,
    step: PathKind,
    nested_goals: &NestedGoals<X::Input>,
) -> Result<(), NoMemory>
    ensures others { state.new ≡ with_nested_goals state.old state.new.nested_goals }
    ensures taken { OnOk result (TakesNestedGoals X.Input.eq own step nested_goals.now
        state.old.nested_goals state.new.nested_goals) }
{
    if nested_goals.is_empty() {
        return Ok(());
    }
    state.nested_goals.extend_from_child(step, nested_goals)?;
    state.nested_goals.insert(own, PathsToNested::EMPTY)
}

/// The same of an answer that was given to the goal. Where it rests on goals it won't be stored, so its goals are
/// taken out of it.
pub fn take_nested_goals<X: Cx>(
    state: &mut EntryState<X>,
    own: X::Input,
    step: PathKind,
    answer: &mut EvaluationResult<X>,
) -> Result<(), NoMemory>
    ensures others { state.new ≡ with_nested_goals state.old state.new.nested_goals }
    ensures taken { OnOk result (TakesNestedGoals X.Input.eq own step answer.old.nested_goals
        state.old.nested_goals state.new.nested_goals) }
    ensures left { LeavesAnswer answer.old answer.new }
{
    if answer.heads.is_empty() {
        return note_nested_goals(state, own, step, &answer.nested_goals);
    }
    if answer.nested_goals.is_empty() {
        return Ok(());
    }
    state
        .nested_goals
        .take_from_child(step, &mut answer.nested_goals)?;
    state.nested_goals.insert(own, PathsToNested::EMPTY)
}

/// What a cycle of this kind, which the step closed, records of its head.
pub fn cycle_head(step: PathKind, kind: PathKind) -> CycleHead
    ensures { result ≡ cycle_head step kind }
{
    let mut usages = HeadUsages::default();
    usages.add_usage(kind);
    CycleHead {
        paths_to_head: PathsToNested::from(step),
        usages,
    }
}
