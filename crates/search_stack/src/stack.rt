//! The goals under evaluation, from the first one up.
ghost use Rattle.std.specs.Prelude.{◌≡◌, ℕ, ◌+◌, ◌-◌, ◌^◌, ◌<◌, List, [], ◌∷◌, ◌++◌, length, IfOk, OnOk, OnErr, IfSome, Some, is_some, IsTrue, ◌↔◌, None, false, slice_index_or, drop, map, vec_len, vec_capacity};
ghost use Rattle.std.specs.HashMap.{Updates, get};
ghost use Rattle.std.specs.List.{IsDistinct, position};
ghost use Rattle.std.specs.Option.{option_map};
ghost use Rattle.std.specs.Slice.Iter.{iter_rest};
ghost use Rattle.search_stack.specs.Words.{position_of};
ghost use Rattle.goal_paths.specs.Words.{IsIndex, TellsKinds};

use crate::depth::{AvailableDepth, StackDepth};
use crate::nested_goals::NestedGoals;
use crate::room::give_room_back;
use cycle_heads::candidates::CandidateHeadUsages;
use cycle_heads::heads::CycleHeads;
use cycle_heads::usages::HeadUsages;
use goal_paths::steps::LastSteps;
use heap_room::{list_bytes, map_bytes};
use path_kinds::path::PathKind;
use search_context::context::{Cx, NoMemory, NodeId};
use std::alloc::Global;
use std::collections::HashMap;
use std::hash::Hash;
use std::marker::Model;
use std::ops::Index;
use std::slice;

/// So many goals are looked through in less time than a map would take, which asks for memory four times.
const FEW: usize = 8;

/// What changes of an entry while its goal is evaluated. Ports the fields of `StackEntry` that the search
/// writes. They lie in memory as they stand here, so the small ones come last.
#[derive(Drop)]
pub struct EntryState<X: Cx> {
    /// The goals below on the stack that this one rests on so far.
    pub heads: CycleHeads,
    /// What the candidate that is open used of the goals on the stack. `None` where none is open.
    pub candidate_usages: Option<CandidateHeadUsages>,
    /// The goals that were asked below this one.
    pub nested_goals: NestedGoals<X::Input>,
    /// The node that answers of cycles to this goal lead to: in the first run that run's own, and then that
    /// of the provisional result. `None` in a new entry, until its first frame starts.
    pub node: Option<NodeId>,
    /// How many goals are nested below this one so far.
    pub required_depth: usize,
    /// How often this goal was used as a head in this run. `None` until it is for the first time; in a
    /// later run it is there, from zero.
    pub usages: Option<HeadUsages>,
    /// What a cycle to this goal is answered with: the result of its last run. `None` in the first run.
    pub provisional_result: Option<X::Result>,
    /// Whether a question was refused below this goal in this run.
    pub encountered_overflow: bool,
}

/// A goal under evaluation. Ports `StackEntry`.
#[derive(Drop)]
pub struct StackEntry<X: Cx> {
    input: X::Input,
    step_kind_from_parent: PathKind,
    available_depth: AvailableDepth,
    pub state: EntryState<X>,
}

impl<X: Cx> StackEntry<X> {
    ghost use Rattle.search_stack.specs.Stack.{fresh_entry};

    /// A goal of which nothing is known yet. It takes no memory.
    pub fn new(
        alloc: Global,
        input: X::Input,
        step_kind_from_parent: PathKind,
        available_depth: AvailableDepth,
    ) -> StackEntry<X>
        ensures { result ≡ fresh_entry input step_kind_from_parent available_depth }
    {
        StackEntry {
            input,
            step_kind_from_parent,
            available_depth,
            state: EntryState {
                heads: CycleHeads::new(alloc),
                candidate_usages: None,
                nested_goals: NestedGoals::new(alloc),
                node: None,
                required_depth: 0,
                usages: None,
                provisional_result: None,
                encountered_overflow: false,
            },
        }
    }

    /// The goal.
    pub fn input(&self) -> X::Input
        ensures { result ≡ self.now.input }
    {
        self.input
    }

    /// The kind of the step by which the goal was asked.
    pub fn step_kind_from_parent(&self) -> PathKind
        ensures { result ≡ self.now.step_kind_from_parent }
    {
        self.step_kind_from_parent
    }

    /// How many goals may be nested below this one.
    pub fn available_depth(&self) -> AvailableDepth
        ensures { result ≡ self.now.available_depth }
    {
        self.available_depth
    }
}

/// The goals under evaluation: a list of entries with distinct inputs, each of which is found by its
/// input. Ports `Stack`.
#[derive(Drop)]
pub struct Stack<X: Cx> {
    entries: Vec<StackEntry<X>>,
    /// Whether there were so many goals that a map was made to find them.
    is_mapped: bool,
    /// The place of each input, if that map was made.
    depths: HashMap<X::Input, usize>,
    /// For each entry, where the last steps up to it are.
    steps: Vec<LastSteps>,
}

impl<X: Cx> Model for Stack<X> {
    ghost use Rattle.std.specs.Prelude.{List, map};
    ghost use Rattle.std.specs.HashMap as hash;
    ghost use Rattle.search_stack.specs.declared.stack.StackEntry.{StackEntry};
    ghost use Rattle.search_stack.specs.Stack.{AreFound};
    ghost use Rattle.goal_paths.specs.Steps.{AreLastSteps};

    ghost Value = { List (StackEntry X X.Input X.Result X.AmbiguityInfo X.DepNodeIndex) };

    ghost view = { λ s. s.entries.items };

    ghost invariant = { λ s. AreFound X.Input.eq s.is_mapped (hash.get X.Input.eq s.depths) (map (λ e. e.input) s.entries.items)
        × AreLastSteps s.steps.items (map (λ e. e.step_kind_from_parent) s.entries.items) };
}

impl<X: Cx> Stack<X> {
    /// No goals.
    pub fn new(alloc: Global) -> Stack<X>
        ensures { result ≡ [] }
    {
        Stack {
            entries: Vec::new(alloc),
            is_mapped: false,
            depths: HashMap::new(alloc),
            steps: Vec::new(alloc),
        }
    }

    /// How many goals are under evaluation.
    pub fn len(&self) -> usize
        ensures { result ≡ length self.now }
    {
        self.entries.len()
    }

    /// Whether no goal is under evaluation.
    pub fn is_empty(&self) -> bool
        ensures { IsTrue result ↔ (self.now ≡ []) }
    {
        self.entries.is_empty()
    }

    /// How many bytes of the heap the stack has room in, without what its entries hold.
    pub fn room_bytes(&self) -> usize {
        list_bytes(&self.entries)
            .saturating_add(map_bytes(&self.depths))
            .saturating_add(list_bytes(&self.steps))
    }

    /// The place that the next goal gets.
    pub fn next_index(&self) -> StackDepth
        ensures { result.0 ≡ length self.now }
    {
        StackDepth::new(self.entries.len())
    }

    /// The place of the entry with that input.
    pub fn find(&self, input: X::Input) -> Option<StackDepth>
        ensures found { option_map (λ d. d.0) result ≡ position_of X.Input.eq input self.now }
        ensures present { is_some result ≡ is_some (position_of X.Input.eq input self.now) }
        ensures on_stack { IfSome result (λ d. d.0 < length self.now) }
    {
        match self.place_of(input) {
            Some(place) => Some(StackDepth::new(place)),
            None => None,
        }
    }

    /// Where the entry with that input stands.
    fn place_of(&self, input: X::Input) -> Option<usize>
        ensures { result ≡ position_of X.Input.eq input self.now }
    {
        if self.is_mapped {
            return self.depths.get(&input).copied();
        }
        place_among(self.entries.as_slice(), input)
    }

    /// The last entry.
    pub fn last(&self) -> &StackEntry<X>
        requires some { 0 < length self.now }
        ensures { result.now ≡ slice_index_or self.now (length self.now - 1) result.now }
    {
        &self.entries[self.entries.len() - 1]
    }

    /// Appends an entry whose input isn't on the stack. A refusal leaves the stack as it was.
    #[inline(always)]
    pub fn push(&mut self, entry: StackEntry<X>) -> Result<StackDepth, NoMemory>
        requires absent { position_of X.Input.eq entry.input self.old ≡ None }
        ensures ok { IfOk result (λ d. (d.0 ≡ length self.old)
            × (self.new ≡ self.old ++ entry ∷ [])) }
        ensures err { OnErr result (self.new ≡ self.old) }
    {
        self.map_many()?;
        let steps = self.steps_with(entry.step_kind_from_parent);
        let depth = note_place(
            &mut self.entries,
            &mut self.steps,
            &mut self.depths,
            self.is_mapped,
            entry.input,
            steps,
        )?;
        self.entries.push_reserved(entry);
        Ok(depth)
    }

    /// Makes the map of the places, if there are many goals and it was not made yet.
    #[inline(always)]
    fn map_many(&mut self) -> Result<(), NoMemory>
        ensures { self.new ≡ self.old }
    {
        if !self.is_mapped && self.entries.len() >= FEW {
            self.depths = mapped(*self.entries.allocator(), self.entries.as_slice())?;
            self.is_mapped = true;
        }
        Ok(())
    }

    /// Where the last steps of the stack will be with one more step.
    fn steps_with(&self, kind: PathKind) -> LastSteps
        ensures { TellsKinds result (map (λ e. e.step_kind_from_parent) self.now ++ kind ∷ []) }
    {
        let below = self.steps.len();
        self.last_steps().with_step(kind, below)
    }

    /// Pops the last entry. It takes no memory, and a large stack that empties gives some back.
    #[inline(always)]
    pub fn pop(&mut self) -> StackEntry<X>
        requires some { 0 < length self.old }
        ensures { self.old ≡ self.new ++ result ∷ [] }
    {
        self.give_room_back();
        let input = self.last().input;
        forget_place(&mut self.depths, self.is_mapped, input);
        let _ = self.steps.pop();
        self.entries.pop().unwrap()
    }

    /// Gives back the memory of many goals that were popped.
    fn give_room_back(&mut self)
        ensures { self.new ≡ self.old }
    {
        give_room_back(&mut self.entries);
        give_room_back(&mut self.steps);
    }

    /// Where the last steps of the stack are.
    fn last_steps(&self) -> LastSteps
        ensures tells { TellsKinds result (map (λ e. e.step_kind_from_parent) self.now) }
        ensures fits { length self.now < 2 ^ 63 }
    {
        match self.steps.last() {
            Some(steps) => *steps,
            None => LastSteps::new(),
        }
    }
}

/// Notes where the next input will stand, and its step, and makes room for its entry. A refusal leaves all as it was.
#[inline(always)]
fn note_place<E, S: Copy, I: Eq + Hash + Copy>(
    entries: &mut Vec<E>,
    steps: &mut Vec<S>,
    depths: &mut HashMap<I, usize>,
    is_mapped: bool,
    input: I,
    step: S,
) -> Result<StackDepth, NoMemory>
    ensures place { IfOk result (λ depth. depth.0 ≡ length entries.old.items) }
    ensures noted { OnOk result (IsTrue is_mapped →
        Updates I.eq depths.old depths.new input (Some (length entries.old.items))) }
    ensures entries { entries.new.items ≡ entries.old.items }
    ensures room { OnOk result (vec_len entries.new < vec_capacity entries.new) }
    ensures step { OnOk result (steps.new.items ≡ steps.old.items ++ step ∷ []) }
    ensures no_step { OnErr result (steps.new.items ≡ steps.old.items) }
    ensures err { OnErr result (depths.new.entries ≡ depths.old.entries) }
{
    entries.reserve(1)?;
    steps.reserve(1)?;
    let depth = entries.len();
    if is_mapped {
        depths.insert(input, depth)?;
    }
    steps.push_reserved(step);
    Ok(StackDepth::new(depth))
}

/// Forgets where the input stood, if its place is in the map.
#[inline(always)]
fn forget_place<I: Eq + Hash + Copy>(depths: &mut HashMap<I, usize>, is_mapped: bool, input: I)
    ensures { IsTrue is_mapped → Updates I.eq depths.old depths.new input None }
{
    if is_mapped {
        let _ = depths.remove(&input);
    }
}

/// Where the first of the entries with that input stands.
fn place_among<X: Cx>(entries: &[StackEntry<X>], input: X::Input) -> Option<usize>
    ensures { result ≡ position (λ entry. X.Input.eq input entry.input) entries.now }
{
    entries.iter().position(|entry| input == entry.input)
}

/// A map of the places of the entries' inputs. It stays out of `push`, which seldom makes one.
#[inline(never)]
fn mapped<X: Cx>(
    alloc: Global,
    entries: &[StackEntry<X>],
) -> Result<HashMap<X::Input, usize>, NoMemory>
    requires { IsDistinct X.Input.eq (map (λ e. e.input) entries.now) }
    ensures { IfOk result (λ depths.
        IsIndex X.Input.eq (get X.Input.eq depths) (map (λ e. e.input) entries.now)) }
{
    let mut depths = HashMap::new(alloc);
    for place in 0..entries.len() {
        depths.insert(entries[place].input, place)?;
    }
    Ok(depths)
}

impl<X: Cx> Stack<X> {
    ghost use Rattle.std.specs.Prelude.{◌≡◌, ◌<◌, ◌+◌, length};
    ghost use Rattle.std.specs.Borrow.{sem};
    ghost use Rattle.search_stack.specs.Stack.{IsLastState};
    ghost use Rattle.search_stack.specs.Lent.{LendsLastState};

    /// What may change of the last entry. Its input is not lent, so that it is found as before.
    pub fn last_mut(&mut self) -> &mut EntryState<X>
        requires some { 0 < length self.old }
        ensures* writes_back { sem 𝓛 (LendsLastState
            X.row X.Input.row X.Result.row X.AmbiguityInfo.row X.DepNodeIndex.row X.Cx
            X.Input.PartialEq X.Input.Hash.own X.Result.PartialEq
            self.entry result) }
        ensures value { IsLastState self.old result.now }
    {
        let last = self.entries.len() - 1;
        let entry = &mut self.entries[last];
        &mut entry.state
    }

    /// The place of the last entry, and what may change of it. Ports `Stack::last_mut_with_index`.
    pub fn last_mut_with_index(&mut self) -> (StackDepth, &mut EntryState<X>)
        requires some { 0 < length self.old }
        ensures* writes_back { sem 𝓛 (LendsLastState
            X.row X.Input.row X.Result.row X.AmbiguityInfo.row X.DepNodeIndex.row X.Cx
            X.Input.PartialEq X.Input.Hash.own X.Result.PartialEq
            self.entry result.1) }
        ensures value { IsLastState self.old result.1.now }
        ensures place { result.0.0 + 1 ≡ length self.old }
    {
        let depth = StackDepth::new(self.len() - 1);
        (depth, self.last_mut())
    }
}

impl<X: Cx> Index<StackDepth> for Stack<X> {
    type Output = StackEntry<X>;

    ghost can_index = { λ s d. d.0 < length s };

    ghost index_gives = { λ s d e. e ≡ slice_index_or s d.0 e };

    fn index(&self, depth: StackDepth) -> &StackEntry<X> {
        &self.entries[depth.index()]
    }
}

impl<X: Cx> Stack<X> {
    ghost use Rattle.std.specs.Prelude.{◌≡◌, ◌<◌, length};
    ghost use Rattle.std.specs.Slice.Iter.{iter_rest};
    ghost use Rattle.search_stack.specs.Cycle.{step_kinds_above, path_kind_from};

    /// The entries, from the first goal up.
    pub fn iter(&self) -> slice::Iter<'_, StackEntry<X>>
        ensures { iter_rest result ≡ self.now }
    {
        self.entries.iter()
    }

    /// The kinds of the steps above `head`, from below: of a cycle that ends at the head, each step but
    /// the one that closes it. Ports `Stack::cycle_step_kinds`.
    pub fn cycle_step_kinds(&self, head: StackDepth) -> CycleStepKinds<'_, X>
        requires { head.0 < length self.now }
        ensures { result ≡ step_kinds_above self.now head.0 }
    {
        CycleStepKinds {
            above: past(self.entries.as_slice(), head.index()).iter(),
        }
    }

    /// The kind of the path from `head` to the last goal and on over `step`: the greatest of the steps
    /// above the head and this one. The step by which the head itself was asked has no part in it. Takes no
    /// walk over the stack. Ports `cycle_path_kind`.
    pub fn path_kind(&self, step: PathKind, head: StackDepth) -> PathKind
        requires { head.0 < length self.now }
        ensures { result ≡ path_kind_from self.now head.0 step }
    {
        step.extend(self.last_steps().kind_past(head.index() + 1))
    }
}

/// The entries past the one at that place.
fn past<E>(entries: &[E], place: usize) -> &[E]
    requires { place < length entries.now }
    ensures { result.now ≡ drop (place + 1) entries.now }
{
    &entries[place + 1..]
}

/// The kinds of the steps above a goal on the stack, from below.
#[derive(Drop)]
pub struct CycleStepKinds<'a, X: Cx> {
    above: slice::Iter<'a, StackEntry<X>>,
}

impl<'a, X: Cx> Model for CycleStepKinds<'a, X> {
    ghost use Rattle.std.specs.Prelude.{List, map};
    ghost use Rattle.std.specs.Slice.Iter.{iter_rest};
    ghost use Rattle.search_stack.specs.Below.{PathKind};

    ghost Value = { List PathKind };

    ghost view = { λ s. map (λ e. e.step_kind_from_parent) (iter_rest s.above) };
}

impl<'a, X: Cx> Iterator for CycleStepKinds<'a, X> {
    ghost use Rattle.std.specs.Iterator.{YieldsFirst, item_count};

    type Item = PathKind;

    ghost next_gives = { YieldsFirst (λ kinds. kinds) };

    ghost remaining = { item_count (λ kinds. kinds) };

    fn next(&mut self) -> Option<PathKind> {
        Some(self.above.next()?.step_kind_from_parent)
    }
}
