//! How a goal's frame goes through its candidates.
ghost use Rattle.std.specs.Prelude.{◌≡◌, ◌<◌, ◌≤◌, ◌+◌, ◌^◌, IfSome};
ghost use Rattle.candidate_lists.specs.Frame.{asking, entering, fresh, ignoring, marked_from, outcome_of, request_of, state_with, with_answer};

use crate::lists::CandidateLists;
use delegate_parts::Outcome;
use search_context::context::{Reply, Request};
use search_context::path::PathKind;
use std::marker::Model;

/// The last request. What else it has stands in other fields of its state.
#[derive(Clone, Copy)]
enum Made {
    /// None, before the first reply.
    Nothing,
    Enter,
    Evaluate,
    Finish,
    Ignore,
    Done,
}

/// Where a frame stands between two steps. A deep stack has very many frames, so the fields leave no gaps between them:
/// beside the goal that was asked they take 16 bytes.
#[derive(Drop)]
pub(crate) struct State<I: Copy> {
    /// The candidate that is open or comes next.
    candidate: u32,
    /// Its question that comes next. Behind the last candidate, none from this one on is ignored yet.
    next: u32,
    /// The goal that was asked last, and the frame's own one before the first question.
    asked: I,
    /// The kind of the step to it.
    kind: PathKind,
    made: Made,
    /// All answers of the open candidate so far are yes.
    holds: bool,
    /// One of them is no.
    fails: bool,
    some_holds: bool,
    unmarked_holds: bool,
    each_fails: bool,
}

// Fields in another order could take more.
const _: () = prove!(size_of::<State<u32>>() == 20);

impl<I: Copy> Model for State<I> {
    ghost use Rattle.candidate_lists.specs.Frame as frame;
    ghost use Rattle.candidate_lists.specs.Packed.{request_made, question_next, ignored_next};

    ghost Value = { frame.State I };

    ghost view = { λ s. record { request = request_made s.made s.kind s.asked s.next s.some_holds s.each_fails; candidate = s.candidate; question = question_next s.made s.next; holds = s.holds; fails = s.fails; some_holds = s.some_holds; unmarked_holds = s.unmarked_holds; each_fails = s.each_fails; next_ignored = ignored_next s.made s.next } };
}

impl<I: Copy> State<I> {
    // The state of a frame of this goal that has had no reply.
    fn new(goal: I) -> State<I>
        ensures { result ≡ fresh }
    {
        State {
            candidate: 0,
            next: 0,
            asked: goal,
            kind: PathKind::Inductive,
            made: Made::Nothing,
            holds: true,
            fails: false,
            some_holds: false,
            unmarked_holds: false,
            each_fails: true,
        }
    }

    // The request that the state has made.
    #[inline(always)]
    fn request(&self) -> Request<I, Outcome>
        ensures { result ≡ request_of self.now }
    {
        match self.made {
            Made::Nothing | Made::Enter => Request::EnterCandidate,
            Made::Evaluate => Request::Evaluate(self.kind, self.asked),
            Made::Finish => Request::FinishCandidate,
            Made::Ignore => Request::Ignore(self.next.saturating_sub(1) as usize),
            Made::Done => Request::Done(self.outcome()),
        }
    }

    fn note_answer(&mut self, outcome: Outcome)
        ensures { self.new ≡ with_answer self.old outcome }
    {
        self.holds &= matches!(outcome, Outcome::Yes);
        self.fails |= matches!(outcome, Outcome::No);
    }

    fn outcome(&self) -> Outcome
        ensures { result ≡ outcome_of self.now }
    {
        if self.some_holds {
            Outcome::Yes
        } else if self.each_fails {
            Outcome::No
        } else {
            Outcome::Maybe
        }
    }
}

/// One run of a goal: each of its candidates is entered in order, all its questions are asked, and it is finished. Where one
/// without a mark holds, each marked one is then ignored.
#[derive(Drop)]
pub struct CandidateFrame<T: CandidateLists> {
    lists: T,
    goal: T::Input,
    state: State<T::Input>,
}

impl<T: CandidateLists> CandidateFrame<T> {
    ghost use Rattle.candidate_lists.specs.Standing.{frame_left};

    /// A frame of the goal that has had no reply.
    pub fn new(lists: T, goal: T::Input) -> CandidateFrame<T>
        ensures lists { result.lists ≡ lists }
        ensures goal { result.goal ≡ goal }
        ensures state { result.state ≡ fresh }
        ensures within { frame_left T.candidates_of result ≤ T.most lists }
    {
        // This is asked for what it ensures of `most` alone.
        let _mark = lists.mark(goal, 0);
        CandidateFrame {
            lists,
            goal,
            state: State::new(goal),
        }
    }

    /// Takes one more reply, and makes the next request.
    #[inline(always)]
    pub fn step(&mut self, reply: Reply<Outcome>) -> Request<T::Input, Outcome>
        ensures lists { self.new.lists ≡ self.old.lists }
        ensures goal { self.new.goal ≡ self.old.goal }
        ensures state { self.new.state ≡ state_with T.question_of
            (T.candidates_of self.old.lists self.old.goal) self.old.state self.old.state.request reply }
        ensures request { result ≡ request_of self.new.state }
    {
        receive(&mut self.state, self.lists, self.goal, reply);
        self.state.request()
    }
}

// Takes one more reply, and makes the next request.
#[inline(always)]
fn receive<T: CandidateLists>(
    state: &mut State<T::Input>,
    lists: T,
    goal: T::Input,
    reply: Reply<Outcome>,
)
    ensures { state.new ≡ state_with T.question_of (T.candidates_of lists goal) state.old
        state.old.request reply }
{
    match (state.made, reply) {
        (Made::Nothing, Reply::Begin) | (Made::Finish, Reply::Noted) => enter(state, lists, goal),
        (Made::Enter, Reply::Noted) => ask(state, lists, goal),
        (Made::Evaluate, Reply::Answer(outcome)) => {
            state.note_answer(outcome);
            ask(state, lists, goal);
        }
        (Made::Ignore, Reply::Noted) => {
            let from = state.next;
            ignore(state, lists, goal, from);
        }
        _ => {}
    }
}

// The next candidate begins, if there is one.
fn enter<T: CandidateLists>(state: &mut State<T::Input>, lists: T, goal: T::Input)
    requires { state.old.next_ignored ≡ 0 }
    ensures { state.new ≡ entering (T.candidates_of lists goal) state.old }
{
    if lists.mark(goal, state.candidate as usize).is_some() {
        state.made = Made::Enter;
        state.next = 0;
        state.holds = true;
        state.fails = false;
    } else {
        ignore(state, lists, goal, 0);
    }
}

// The open candidate's next question is asked, if there is one. It is called in two places, and so not inlined unasked.
#[inline(always)]
fn ask<T: CandidateLists>(state: &mut State<T::Input>, lists: T, goal: T::Input)
    requires { state.old.next_ignored ≡ 0 }
    ensures { state.new ≡ asking T.question_of (T.candidates_of lists goal) state.old }
{
    match lists.question(goal, state.candidate as usize, state.next as usize) {
        Some((kind, asked)) => {
            state.made = Made::Evaluate;
            state.kind = kind;
            state.asked = asked;
            state.next += 1;
        }
        None => match lists.mark(goal, state.candidate as usize) {
            Some(is_marked) => {
                state.made = Made::Finish;
                state.candidate += 1;
                state.some_holds = state.some_holds || state.holds;
                state.unmarked_holds = state.unmarked_holds || (state.holds && !is_marked);
                state.each_fails = state.each_fails && state.fails;
            }
            None => ignore(state, lists, goal, 0),
        },
    }
}

// All candidates are finished. Where an unmarked one holds, the next marked one is ignored.
fn ignore<T: CandidateLists>(state: &mut State<T::Input>, lists: T, goal: T::Input, from: u32)
    requires { state.old.next_ignored ≡ from }
    ensures { state.new ≡ ignoring (T.candidates_of lists goal) state.old }
{
    let next = if state.unmarked_holds {
        next_marked(lists, goal, from as usize)
    } else {
        None
    };
    match next {
        Some(n) => {
            state.made = Made::Ignore;
            state.next = n as u32 + 1;
        }
        None => {
            state.made = Made::Done;
            state.next = from;
        }
    }
}

// The first marked candidate at or after a place.
fn next_marked<T: CandidateLists>(lists: T, goal: T::Input, from: usize) -> Option<usize>
    ensures value { result ≡ marked_from 0 (T.candidates_of lists goal) from }
    ensures few { IfSome result (λ n. n + 1 < 2 ^ 32) }
{
    let mut place = from;
    while let Some(is_marked) = lists.mark(goal, place) {
        if is_marked {
            return Some(place);
        }
        place += 1;
    }
    None
}
