//! The lists of what a run has done.
ghost use Rattle.std.specs.Prelude.{◌≡◌, ◌<◌, ◌^◌, All, Contains, OnOk, IfOk, slice_get};
ghost use Rattle.std.specs.Option.{IfSome};
ghost use Rattle.run_records.specs.Below.{NodeId, ignored_by};
ghost use Rattle.run_records.specs.Words.{HasTarget, begun, edges_of, going_on, no_record, received, rests_on};

use crate::progress::{Beginning, DefiniteAnswer};
use heap_room::list_bytes;
use path_kinds::path::PathKind;
use search_context::context::{Edge, NoMemory, NodeId, Reply, Request, Verdict};
use std::alloc::Global;
use std::marker::Model;

/// A definite answer in less room, since a large run has very many: its fields leave no gaps between them.
#[derive(Drop)]
struct PackedAnswer<I> {
    target: usize,
    /// One more than the number of the candidate, or 0 outside of candidates.
    candidate: usize,
    input: I,
    kind: PathKind,
    verdict: Verdict,
}

// Fields in another order could take more.
const _: () = prove!(size_of::<PackedAnswer<u32>>() == 24);

impl<I> Model for PackedAnswer<I> {
    ghost use Rattle.run_records.specs.declared.progress.DefiniteAnswer.{DefiniteAnswer};

    ghost Value = { DefiniteAnswer I };

    ghost use Rattle.run_records.specs.Progress.{less_one};

    ghost view = { λ a. record { edge = record { kind = a.kind; input = a.input; target = a.target }; verdict = a.verdict; candidate = less_one a.candidate } };
}

impl<I: Copy> PackedAnswer<I> {
    /// Packs the answer.
    fn new(answer: DefiniteAnswer<I>) -> Self
        requires { IfSome answer.candidate (λ number. number < 2 ^ 63) }
        ensures { result ≡ answer }
    {
        PackedAnswer {
            target: answer.edge.target,
            candidate: answer.candidate.map_or(0, |number| number + 1),
            input: answer.edge.input,
            kind: answer.edge.kind,
            verdict: answer.verdict,
        }
    }

    /// The answer.
    fn unpacked(&self) -> DefiniteAnswer<I>
        ensures { result ≡ self.now }
    {
        DefiniteAnswer {
            edge: Edge {
                kind: self.kind,
                input: self.input,
                target: self.target,
            },
            verdict: self.verdict,
            candidate: self.candidate.checked_sub(1),
        }
    }
}

/// The lists of what a run has done. Clauses see them as what was done by a run that made no request and has no open
/// candidate.
#[derive(Drop)]
pub(crate) struct Lists<I, R> {
    replies: Vec<Reply<R>>,
    answers: Vec<PackedAnswer<I>>,
    /// One for each finished candidate.
    ignored: Vec<bool>,
}

impl<I, R> Model for Lists<I, R> {
    ghost use Rattle.std.specs.Prelude.{None, false};
    ghost use Rattle.run_records.specs.Progress.{RunRecord};

    ghost Value = { RunRecord I R };

    ghost view = { λ t. record { replies = t.replies.items; request = None; answers = t.answers.items; is_open = false; ignored = t.ignored.items } };
}

impl<I: Copy, R: Copy> Lists<I, R> {
    /// Nothing was done yet.
    pub(super) fn new(alloc: Global) -> Self
        ensures { result ≡ no_record }
    {
        Lists {
            replies: Vec::new(alloc),
            answers: Vec::new(alloc),
            ignored: Vec::new(alloc),
        }
    }

    /// Forgets what was done, and keeps the memory: the run only began like this. A refusal leaves anything.
    pub(super) fn restart(&mut self, beginning: Beginning) -> Result<(), NoMemory>
        ensures { OnOk result (self.new ≡ begun beginning) }
    {
        self.clear();
        match beginning {
            Beginning::Nothing => {}
            Beginning::Begun => self.replies.push(Reply::Begin)?,
            Beginning::InCandidate => {
                self.replies.push(Reply::Begin)?;
                self.replies.push(Reply::Noted)?;
            }
        }
        Ok(())
    }

    /// Takes the reply to this request, and notes whether a candidate is open. `verdict` is that of an answer, `node` its
    /// node if it is definite. A refusal leaves anything.
    #[inline(always)]
    pub(super) fn receive(
        &mut self,
        request: Option<Request<I, R>>,
        is_open: &mut bool,
        reply: Reply<R>,
        verdict: Verdict,
        node: Option<NodeId>,
    ) -> Result<(), NoMemory>
        ensures { OnOk result (going_on self.new request is_open.new
            ≡ received (going_on self.old request is_open.old) reply verdict node) }
    {
        match request {
            Some(Request::Evaluate(kind, input)) => {
                if let (Verdict::Yes | Verdict::No, Some(node)) = (verdict, node) {
                    let edge = Edge {
                        kind,
                        input,
                        target: node.0,
                    };
                    let candidate = (*is_open).then_some(self.ignored.len());
                    let answer = DefiniteAnswer {
                        edge,
                        verdict,
                        candidate,
                    };
                    self.answers.push(PackedAnswer::new(answer))?;
                }
            }
            Some(Request::EnterCandidate) => *is_open = true,
            Some(Request::FinishCandidate) => {
                *is_open = false;
                self.ignored.push(false)?;
            }
            Some(Request::Ignore(number)) => {
                if let Some(ignored) = self.ignored.get_mut(number) {
                    *ignored = true;
                }
            }
            Some(Request::Done(_)) | None => {}
        }
        self.replies.push(reply)?;
        Ok(())
    }

    /// Of each finished candidate, whether it is ignored.
    pub(super) fn ignored(&self) -> &[bool]
        ensures { result.now ≡ self.now.ignored }
    {
        self.ignored.as_slice()
    }

    /// The edges that a result of this verdict rests on: those of its answers outside ignored
    /// candidates, in the order of asking. The list has no room to spare, since the node of the run has
    /// it for good.
    #[inline(always)]
    pub(super) fn edges(&self, verdict: Verdict) -> Result<Vec<Edge<I>>, NoMemory>
        ensures { IfOk result (λ edges. edges.items ≡ edges_of self.now verdict) }
    {
        let count = self.edge_count(verdict);
        let mut edges = Vec::with_capacity(*self.answers.allocator(), count)?;
        for packed in &self.answers {
            let answer = packed.unpacked();
            if self.is_rested_on(&answer, verdict) {
                edges.push(answer.edge)?;
            }
        }
        Ok(edges)
    }

    /// How many edges a result of this verdict rests on.
    fn edge_count(&self, verdict: Verdict) -> usize {
        let mut count = 0;
        for packed in &self.answers {
            if self.is_rested_on(&packed.unpacked(), verdict) {
                count += 1;
            }
        }
        count
    }

    /// Whether a result of this verdict rests on the answer.
    pub(super) fn is_rested_on(&self, answer: &DefiniteAnswer<I>, verdict: Verdict) -> bool
        ensures { result ≡ rests_on self.now.ignored verdict answer.now }
    {
        answer.verdict == verdict
            && answer
                .candidate
                .is_none_or(|number| !self.is_ignored(number))
    }

    /// Whether the finished candidate of this number is ignored.
    fn is_ignored(&self, number: usize) -> bool
        ensures { result ≡ ignored_by self.now.ignored number }
    {
        self.ignored.get(number) == Some(&true)
    }

    /// Appends the nodes of the definite answers, also of those in ignored candidates. A refusal may leave a part
    /// of them appended.
    pub(super) fn push_targets(&self, nodes: &mut Vec<NodeId>) -> Result<(), NoMemory>
        ensures kept { (n : NodeId) → Contains nodes.old.items n → Contains nodes.new.items n }
        ensures answers { OnOk result (All (HasTarget nodes.new.items) self.now.answers) }
    {
        for packed in &self.answers {
            let answer = packed.unpacked();
            nodes.push(NodeId(answer.edge.target))?;
        }
        Ok(())
    }

    /// The replies, the oldest first, in a list that has no room to spare: the node of the run has it for good.
    pub(super) fn replies(&self) -> Result<Vec<Reply<R>>, NoMemory>
        ensures { IfOk result (λ replies. replies.items ≡ self.now.replies) }
    {
        let replies = Vec::from_slice(*self.replies.allocator(), &self.replies)?;
        Ok(replies)
    }

    /// The definite answer at this place, in the order of asking.
    pub(super) fn answer(&self, place: usize) -> Option<DefiniteAnswer<I>>
        ensures { result ≡ slice_get self.now.answers place }
    {
        let packed = self.answers.get(place)?;
        Some(packed.unpacked())
    }

    /// How many definite answers there were.
    pub(super) fn answer_count(&self) -> usize {
        self.answers.len()
    }

    /// Whether there are answers of this verdict to questions of this kind, and to others, also in ignored candidates.
    pub(super) fn mixes_kinds(&self, kind: PathKind, verdict: Verdict) -> bool {
        let mut of_kind = false;
        let mut of_others = false;
        for answer in &self.answers {
            if answer.verdict == verdict {
                of_kind |= answer.kind == kind;
                of_others |= answer.kind != kind;
            }
            if of_kind && of_others {
                return true;
            }
        }
        false
    }

    /// The replies so far, the oldest first.
    pub(super) fn replies_so_far(&self) -> &[Reply<R>] {
        self.replies.as_slice()
    }

    /// How many bytes of the heap they hold.
    pub(crate) fn held_bytes(&self) -> usize {
        list_bytes(&self.replies)
            .saturating_add(list_bytes(&self.answers))
            .saturating_add(list_bytes(&self.ignored))
    }

    /// Forgets what was done, and keeps the memory.
    pub(super) fn clear(&mut self)
        ensures { self.new ≡ no_record }
    {
        self.replies.clear();
        self.answers.clear();
        self.ignored.clear();
    }
}
