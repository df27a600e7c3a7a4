//! How far a run has come that is replayed.
ghost use Rattle.std.specs.Prelude.{◌≡◌, ◌↔◌, IsTrue, OnOk, true, map};
ghost use Rattle.graph_check.specs.Below.{question_of, Fits, counted_by, ignored_by};
ghost use Rattle.graph_check.specs.Words.{nothing_replayed, replied, requested, is_orderly, question_asked, questions_counted};

use path_kinds::path::PathKind;
use search_context::context::{Cx, Edge, NoMemory, Reply, Request};
use std::alloc::Global;
use std::marker::Model;

/// A question whose answer has the sort that is checked, and the candidate that it was asked in.
#[derive(Clone, Copy)]
pub(crate) struct AskedQuestion<I> {
    kind: PathKind,
    input: I,
    /// The number that the candidate has once it is finished.
    candidate: Option<usize>,
}

/// What a run has done so far: its last request, the questions whose answers have the sort that is
/// checked, and its candidates.
#[derive(Drop)]
pub(crate) struct RunRecord<I, R> {
    request: Option<Request<I, R>>,
    asked: Vec<AskedQuestion<I>>,
    is_open: bool,
    /// One for each finished candidate.
    ignored: Vec<bool>,
}

impl<I, R> Model for RunRecord<I, R> {
    ghost use Rattle.graph_check.specs.Replay.{Replayed};

    ghost Value = { Replayed I R };

    ghost view = { λ t. record {
      request = t.request;
      asked = t.asked.items;
      is_open = t.is_open;
      ignored = t.ignored.items;
    } };
}

impl<I: Copy, R: Copy> RunRecord<I, R> {
    /// Nothing was done yet.
    pub(crate) fn new(alloc: Global) -> Self
        ensures { result ≡ nothing_replayed }
    {
        RunRecord {
            request: None,
            asked: Vec::new(alloc),
            is_open: false,
            ignored: Vec::new(alloc),
        }
    }

    /// Whether the reply can be one to the last request, or the first of all. None follows a result.
    pub(crate) fn fits(&self, reply: Reply<R>) -> bool
        ensures { IsTrue result ↔ Fits self.now.request reply }
    {
        match (self.request, reply) {
            (None, Reply::Begin) => true,
            (Some(Request::Evaluate(..)), Reply::Answer(_)) => true,
            (Some(Request::EnterCandidate), Reply::Noted) => true,
            (Some(Request::FinishCandidate), Reply::Noted) => true,
            (Some(Request::Ignore(_)), Reply::Noted) => true,
            _ => false,
        }
    }

    /// Takes the reply to the last request. `has_sort` says whether it is an answer of the sort that
    /// is checked. A refusal leaves anything.
    pub(crate) fn receive(&mut self, has_sort: bool) -> Result<(), NoMemory>
        ensures { OnOk result (self.new ≡ replied self.old self.old.request has_sort) }
    {
        match self.request {
            Some(Request::Evaluate(kind, input)) => {
                if has_sort {
                    self.keep(kind, input)?;
                }
            }
            Some(Request::EnterCandidate) => self.is_open = true,
            Some(Request::FinishCandidate) => {
                self.is_open = false;
                self.ignored.push(false)?;
            }
            Some(Request::Ignore(number)) => {
                if let Some(ignored) = self.ignored.get_mut(number) {
                    *ignored = true;
                }
            }
            Some(Request::Done(_)) | None => {}
        }
        Ok(())
    }

    /// Keeps a question, asked in the open candidate if there is one.
    fn keep(&mut self, kind: PathKind, input: I) -> Result<(), NoMemory>
        ensures { OnOk result
            (self.new ≡ replied self.old (Some (Request.Evaluate kind input)) true) }
    {
        let candidate = self.is_open.then_some(self.ignored.len());
        self.asked.push(AskedQuestion {
            kind,
            input,
            candidate,
        })?;
        Ok(())
    }

    /// Whether the request comes in order now: a candidate may begin while none is open, the open one
    /// may end, and one may be ignored that is finished and isn't ignored already.
    pub(crate) fn is_in_order(&self, request: Request<I, R>) -> bool
        ensures { result ≡ is_orderly self.now request }
    {
        match request {
            Request::EnterCandidate => !self.is_open,
            Request::FinishCandidate => self.is_open,
            Request::Ignore(number) => number < self.ignored.len() && !self.is_ignored(number),
            Request::Evaluate(..) | Request::Done(_) => true,
        }
    }

    /// Notes the request that followed.
    pub(crate) fn note_request(&mut self, request: Request<I, R>)
        ensures { self.new ≡ requested self.old request }
    {
        self.request = Some(request);
    }

    /// Whether the question was asked outside ignored candidates.
    fn counts(&self, asked: &AskedQuestion<I>) -> bool
        ensures { result ≡ counted_by self.now.ignored asked.now.candidate }
    {
        asked
            .candidate
            .is_none_or(|number| !self.is_ignored(number))
    }

    /// Whether the finished candidate of this number is ignored.
    fn is_ignored(&self, number: usize) -> bool
        ensures { result ≡ ignored_by self.now.ignored number }
    {
        self.ignored.get(number) == Some(&true)
    }
}

/// Whether the run has ended with this result.
pub(crate) fn is_done<X: Cx>(run: &RunRecord<X::Input, X::Result>, outcome: X::Result) -> bool
    ensures { IsTrue result ↔ (run.now.request ≡ Some (Request.Done outcome)) }
{
    match run.request {
        Some(Request::Done(found)) => found == outcome,
        _ => false,
    }
}

/// Whether the edges ask the questions outside ignored candidates, in the order of asking.
pub(crate) fn has_edges<X: Cx>(
    run: &RunRecord<X::Input, X::Result>,
    edges: &[Edge<X::Input>],
) -> bool
    ensures { IsTrue result ↔ (map question_of edges.now ≡ questions_counted run.now) }
{
    let mut left = edges;
    for asked in &run.asked {
        if run.counts(asked) {
            let Some((edge, later)) = left.split_first() else {
                return false;
            };
            if !asks::<X>(edge, asked) {
                return false;
            }
            left = later;
        }
    }
    left.is_empty()
}

/// Whether the edge asks this question.
fn asks<X: Cx>(edge: &Edge<X::Input>, asked: &AskedQuestion<X::Input>) -> bool
    ensures { IsTrue result ↔ (question_of edge.now ≡ question_asked asked.now) }
{
    edge.kind == asked.kind && edge.input == asked.input
}
