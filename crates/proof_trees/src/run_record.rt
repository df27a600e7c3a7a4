//! What is remembered of a run while it goes on.
ghost use Rattle.std.specs.Prelude.{◌≡◌};

use crate::entry::{Entry, Part};
use path_kinds::path::PathKind;
use search_context::context::{Reply, Request};

/// Where a run stands in the tree.
#[derive(Clone, Copy)]
pub(crate) struct Place {
    pub(crate) level: usize,
    /// The kind of the step by which its goal was asked.
    pub(crate) kind: Option<PathKind>,
    /// Which run of its goal it is.
    pub(crate) number: usize,
}

impl Place {
    ghost use Rattle.proof_trees.specs.Entries.{root_place};

    /// That of the root's first run.
    pub(crate) fn root() -> Place
        ensures { result ≡ root_place }
    {
        Place {
            level: 0,
            kind: None,
            number: 1,
        }
    }
}

/// A run that goes on.
#[derive(Clone, Copy)]
pub(crate) struct RunRecord<I, R> {
    goal: I,
    place: Place,
    /// How many candidates were finished.
    finished: usize,
    in_candidate: bool,
    /// The request that was made last.
    request: Option<Request<I, R>>,
}

impl<I: Copy, R: Copy> RunRecord<I, R> {
    ghost use Rattle.proof_trees.specs.Entries.{entry_of_run, new_record, own_level, question_level};
    ghost use Rattle.proof_trees.specs.Entries.{entry_of_reply, entry_of_request, place_after, record_after};

    /// The record of a run that begins.
    pub(crate) fn new(goal: I, place: Place) -> RunRecord<I, R>
        ensures { result ≡ new_record goal place }
    {
        RunRecord {
            goal,
            place,
            finished: 0,
            in_candidate: false,
            request: None,
        }
    }

    /// The entry of the run itself.
    pub(crate) fn entry(self) -> Entry<I, R>
        ensures { result ≡ entry_of_run self }
    {
        Entry {
            level: self.place.level,
            part: Part::Run {
                kind: self.place.kind,
                goal: self.goal,
                number: self.place.number,
            },
        }
    }

    /// The entry of a reply to the last request: that of a question that was answered.
    pub(crate) fn reply_entry(self, reply: Reply<R>) -> Option<Entry<I, R>>
        ensures { result ≡ entry_of_reply self self.request reply }
    {
        match (self.request, reply) {
            (Some(Request::Evaluate(kind, goal)), Reply::Answer(result_given)) => Some(Entry {
                level: self.question_level(),
                part: Part::Question {
                    kind,
                    goal,
                    result: result_given,
                },
            }),
            _ => None,
        }
    }

    /// The entry of a request. A question has none before it is answered.
    pub(crate) fn request_entry(self, request: Request<I, R>) -> Option<Entry<I, R>>
        ensures { result ≡ entry_of_request self request }
    {
        let part = match request {
            Request::Evaluate(_, _) => return None,
            Request::EnterCandidate => Part::Candidate(self.finished),
            Request::FinishCandidate => Part::FinishedCandidate(self.finished),
            Request::Ignore(number) => Part::IgnoredCandidate(number),
            Request::Done(outcome) => Part::RunEnd(outcome),
        };
        Some(Entry {
            level: self.own_level(),
            part,
        })
    }

    /// The record after a request.
    pub(crate) fn after(self, request: Request<I, R>) -> RunRecord<I, R>
        ensures { result ≡ record_after self request }
    {
        let made = RunRecord {
            request: Some(request),
            ..self
        };
        match request {
            Request::EnterCandidate => RunRecord {
                in_candidate: true,
                ..made
            },
            Request::FinishCandidate => RunRecord {
                in_candidate: false,
                finished: self.finished.saturating_add(1),
                ..made
            },
            _ => made,
        }
    }

    /// Where a run stands that starts next: that of a goal that is asked, or one more of the same goal. `before` is where
    /// it would have stood before the request.
    pub(crate) fn place_after(self, before: Place, request: Request<I, R>) -> Place
        ensures { result ≡ place_after self before request }
    {
        match request {
            Request::Evaluate(kind, _) => Place {
                level: self.question_level(),
                kind: Some(kind),
                number: 1,
            },
            Request::Done(_) => Place {
                number: self.place.number.saturating_add(1),
                ..self.place
            },
            _ => before,
        }
    }

    fn own_level(self) -> usize
        ensures { result ≡ own_level self }
    {
        self.place.level.saturating_add(1)
    }

    fn question_level(self) -> usize
        ensures { result ≡ question_level self }
    {
        if self.in_candidate {
            self.own_level().saturating_add(1)
        } else {
            self.own_level()
        }
    }
}
