//! Where answers that are neither yes nor no come from: which question was cut off, and why.
//!
//! A watcher stands beside the builder that counts frames. It sees what each frame is told and what it asks for, and lets a
//! search use its cache in full.
ghost use Rattle.std.specs.Prelude.{◌≡◌, Bool, true};

mod run;

use crate::progress::Progress;
use delegate_parts::{Builder, Outcome};
use run::Question;
pub(crate) use run::RunWatch;
use search_context::context::{NoMemory, Reply, Request};
use search_context::path::PathKind;
use std::alloc::Global;
use std::collections::HashMap;
use std::hash::Hash;

/// Why a question was answered neither yes nor no.
#[derive(Clone, Copy, Debug, PartialEq, Eq)]
pub enum Cause {
    /// The goal that asks it had no depth left. Where some goal had its most runs before, it may be the asked one, whose
    /// result was stored.
    Depth { or_runs: bool },
    /// Its goal had its most runs.
    Runs,
    /// It closed a cycle of this kind.
    Cycle(PathKind),
    /// Its goal was worked out before, and came to maybe.
    Known,
}

impl Cause {
    ghost use Rattle.watched_runs.specs.Reasons.{is_limit};

    /// Whether it says where questions were cut off first: a known result, and a cycle whose earlier run came to maybe, hand on
    /// what was met before.
    pub(crate) fn is_first(self) -> bool {
        match self {
            Cause::Depth { .. } | Cause::Runs => true,
            Cause::Cycle(kind) => matches!(kind, PathKind::Unknown | PathKind::ForcedAmbiguity),
            Cause::Known => false,
        }
    }

    // Whether it is a limit that the same call met.
    fn is_limit(self) -> bool
        ensures { result ≡ is_limit self }
    {
        match self {
            Cause::Depth { or_runs } => !or_runs,
            Cause::Runs => true,
            Cause::Cycle(_) | Cause::Known => false,
        }
    }
}

/// A question that was answered neither yes nor no, without a question below it that was.
#[derive(Clone, Copy)]
pub struct Cut<I> {
    /// The goal that asked it.
    pub by: I,
    pub kind: PathKind,
    pub asked: I,
    pub cause: Cause,
}

/// Why the goal that was asked from outside came to neither yes nor no.
#[derive(Clone, Copy)]
pub enum Reason<I> {
    /// A question was cut off.
    Cut(Cut<I>),
    /// It had its most runs itself.
    Runs,
    /// It was worked out before.
    Known,
    /// None was noted. That is proved impossible only of an overflow of a call that met a limit; no search over goals with
    /// candidates was seen to come to it.
    Unnoted,
}

// A goal under evaluation, and the kind of the step by which it was asked.
#[derive(Clone, Copy)]
struct Level<I> {
    goal: I,
    kind: PathKind,
}

/// How many runs are started between two notes of progress.
const RUNS_A_NOTE: u64 = 1024;

/// Counts frames, and notes why goals come to neither yes nor no. One watcher is for all questions over one cache.
#[derive(Drop)]
pub struct Watcher<I: Eq + Hash, P> {
    pub(crate) inner: Builder,
    progress: P,
    /// How many questions began before this one.
    done: usize,
    /// The goals under evaluation.
    open: Vec<Level<I>>,
    /// The kind of the step of the frame that starts next.
    next: PathKind,
    /// Why the run that ended last came to neither yes nor no.
    last: Option<Cut<I>>,
    /// Where the goals that came to maybe were cut off first, each in the last run of it that did.
    noted: HashMap<I, Cut<I>>,
    /// Some goal had its most runs.
    had_most_runs: bool,
}

impl<I: Eq + Hash + Copy, P: Progress> Watcher<I, P> {
    ghost use Rattle.delegate_parts.specs.Builder.{is_noop_of, started_in};
    ghost use Rattle.delegate_parts.specs.declared.outcome.Outcome.{Outcome as SpecOutcome};
    ghost use Rattle.watched_runs.specs.Reasons.{IsReason, was_run};
    ghost use Rattle.watched_runs.specs.Watch.{inner_of};

    /// A watcher that has seen nothing.
    pub fn new(alloc: Global, progress: P) -> Watcher<I, P>
        ensures noop { is_noop_of (inner_of result) ≡ true }
        ensures started { started_in (inner_of result) ≡ 0 }
    {
        Watcher {
            inner: Builder::new(true),
            progress,
            done: 0,
            open: Vec::new(alloc),
            next: PathKind::Inductive,
            last: None,
            noted: HashMap::new(alloc),
            had_most_runs: false,
        }
    }

    /// The next question begins: what belongs to the last one alone is forgotten. The number is that of the questions before.
    pub fn begin(&mut self, done: usize) {
        self.done = done;
        self.tell();
        self.open.clear();
        self.next = PathKind::Inductive;
        self.last = None;
    }

    /// How many frames were started, for all questions.
    pub fn started(&self) -> u64
        ensures { result ≡ started_in (inner_of self.now) }
    {
        self.inner.started()
    }

    /// Why the question came to this outcome, if that is neither yes nor no. So many frames had started before it, and its call
    /// met a limit or not.
    pub fn reason(&mut self, outcome: Outcome, before: u64, is_limited: bool) -> Reason<I>
        ensures reason { IsReason (was_run before (inner_of self.old)) is_limited outcome result }
        ensures same { inner_of self.new ≡ inner_of self.old }
    {
        if self.inner.started() == before {
            return Reason::Known;
        }
        match (outcome, self.last) {
            (Outcome::Overflow, _) if is_limited => {
                self.had_most_runs = true;
                Reason::Runs
            }
            (Outcome::Maybe, Some(cut)) if is_limited || !cut.cause.is_limit() => Reason::Cut(cut),
            _ => Reason::Unnoted,
        }
    }

    /// Where the goal was cut off first that came to neither yes nor no for this reason, if that was seen: for this question or
    /// for an earlier one.
    pub fn first_cause(&self, goal: I, reason: Reason<I>) -> Option<Cause> {
        match reason {
            Reason::Runs => Some(Cause::Runs),
            Reason::Cut(cut) => Some(self.first_cut(cut).cause),
            Reason::Known | Reason::Unnoted => match self.noted.get(&goal) {
                Some(cut) => Some(cut.cause),
                None => None,
            },
        }
    }

    /// The reason, by the question where the goal was cut off first, for this question or for an earlier one, if that was seen. It
    /// is no limit that the call did not meet.
    pub fn first_reason(&self, reason: Reason<I>, is_limited: bool) -> Reason<I>
        ensures { (is_run : Bool) (outcome : SpecOutcome) → IsReason is_run is_limited outcome reason →
            IsReason is_run is_limited outcome result }
    {
        match reason {
            Reason::Cut(cut) => {
                let first = self.first_cut(cut);
                if is_limited || !first.cause.is_limit() {
                    Reason::Cut(first)
                } else {
                    Reason::Cut(cut)
                }
            }
            Reason::Runs => Reason::Runs,
            Reason::Known => Reason::Known,
            Reason::Unnoted => Reason::Unnoted,
        }
    }

    // Where a goal was cut off first that was cut off here: a result that was known hands on what was met before.
    fn first_cut(&self, cut: Cut<I>) -> Cut<I> {
        if cut.cause.is_first() {
            return cut;
        }
        self.noted.get(&cut.asked).copied().unwrap_or(cut)
    }

    /// Notes that a run of the goal begins.
    pub(crate) fn note_start(&mut self, goal: I) -> Result<RunWatch<I>, NoMemory>
        ensures { inner_of self.new ≡ inner_of self.old }
    {
        self.open.push(Level {
            goal,
            kind: self.next,
        })?;
        if self.inner.started() % RUNS_A_NOTE == 0 {
            self.tell();
        }
        Ok(RunWatch::new(goal))
    }

    fn tell(&mut self)
        ensures { inner_of self.new ≡ inner_of self.old }
    {
        self.progress.note(self.done, self.inner.started());
    }

    /// Notes what the run is told.
    pub(crate) fn note_reply(&mut self, run: RunWatch<I>, reply: Reply<Outcome>) -> RunWatch<I>
        ensures { inner_of self.new ≡ inner_of self.old }
    {
        match (run.question, reply) {
            (Some(question), Reply::Answer(outcome)) => match outcome {
                Outcome::Yes => run,
                Outcome::No => run.failing(),
                Outcome::Maybe | Outcome::Overflow => {
                    run.cut_off(self.cut_of(run.goal, question, outcome))
                }
            },
            _ => run,
        }
    }

    /// Notes what the run asks for.
    pub(crate) fn note_request(
        &mut self,
        run: RunWatch<I>,
        request: Request<I, Outcome>,
    ) -> Result<RunWatch<I>, NoMemory>
        ensures { inner_of self.new ≡ inner_of self.old }
    {
        let run = match request {
            Request::Evaluate(kind, goal) => {
                self.next = kind;
                run.asking(Question {
                    kind,
                    goal,
                    started: self.inner.started(),
                })
            }
            Request::EnterCandidate => run.entering(),
            Request::FinishCandidate => run.finishing(),
            Request::Ignore(_) => run,
            Request::Done(_) => {
                self.note_end(&run)?;
                run
            }
        };
        Ok(run)
    }

    // Notes that the run is done.
    fn note_end(&mut self, run: &RunWatch<I>) -> Result<(), NoMemory>
        ensures { inner_of self.new ≡ inner_of self.old }
    {
        // Where the goal is run again, it is by the same step.
        if let Some(level) = self.open.pop() {
            self.next = level.kind;
        }
        let RunWatch { goal, cut, .. } = *run;
        self.last = cut;
        if let Some(cut) = cut {
            let first = self.first_cut(cut);
            self.noted.insert(goal, first)?;
        }
        Ok(())
    }

    // Why the question has this answer, which is neither yes nor no.
    fn cut_of(&mut self, by: I, question: Question<I>, outcome: Outcome) -> Cut<I>
        ensures { inner_of self.new ≡ inner_of self.old }
    {
        let was_run = self.inner.started() != question.started;
        let cause = match (was_run, outcome) {
            (true, Outcome::Overflow) => {
                self.had_most_runs = true;
                Cause::Runs
            }
            (true, _) => match self.last {
                Some(cut) => return cut,
                None => Cause::Known,
            },
            (false, Outcome::Overflow) => Cause::Depth {
                or_runs: self.had_most_runs,
            },
            (false, _) => match self.cycle_kind(question) {
                Some(kind) => Cause::Cycle(kind),
                None => Cause::Known,
            },
        };
        Cut {
            by,
            kind: question.kind,
            asked: question.goal,
            cause,
        }
    }

    // The kind of the cycle that the question closes, if its goal is under evaluation.
    fn cycle_kind(&self, question: Question<I>) -> Option<PathKind> {
        let mut kind = question.kind;
        for level in self.open.iter().rev() {
            if level.goal == question.goal {
                return Some(kind);
            }
            kind = kind.extend(level.kind);
        }
        None
    }
}
