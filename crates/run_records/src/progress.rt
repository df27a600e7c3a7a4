//! What a run has done so far.
ghost use Rattle.std.specs.Prelude.{◌≡◌, ◌||◌, All, Bool, Contains, OnOk, IfOk, Option, slice_get};
ghost use Rattle.std.specs.Option.{IfSome};
ghost use Rattle.run_records.specs.Below.{NodeId};
ghost use Rattle.run_records.specs.Words.{HasTarget, begun, edges_of, fault_of, going_on, is_in_candidate, no_record, received, replies_of, requested, rests_on};

mod lists;

use heap_room::bytes_for;
pub(crate) use lists::Lists;
use path_kinds::path::PathKind;
use search_context::context::{Edge, NoMemory, NodeId, Reply, Request, Verdict};
use std::alloc::Global;
use std::marker::Model;

/// A definite answer of a run: the edge that it gives, its verdict, and the candidate that it was
/// asked in.
#[derive(Clone, Copy)]
pub struct DefiniteAnswer<I> {
    pub edge: Edge<I>,
    pub verdict: Verdict,
    /// The number that the candidate has once it is finished.
    pub candidate: Option<usize>,
}

/// How a run begins. Most runs ask their first question in their first candidate.
#[derive(Clone, Copy)]
pub(crate) enum Beginning {
    /// It had no reply.
    Nothing,
    /// It had `Begin`.
    Begun,
    /// It had `Begin` and then `Noted`, for a candidate.
    InCandidate,
}

/// What a run has done so far: its replies, its last request, its definite answers with their nodes,
/// and its candidates.
///
/// On a deep stack very many runs wait for their first answer. So a run has lists only once there is more to tell than
/// how it began.
#[derive(Drop)]
pub struct Progress<I, R> {
    lists: Option<Box<Lists<I, R>>>,
    /// The last request.
    request: Option<Request<I, R>>,
    /// How a run that has no lists began.
    beginning: Beginning,
    /// Whether a candidate is open.
    is_open: bool,
    alloc: Global,
}

impl<I, R> Model for Progress<I, R> {
    ghost use Rattle.std.specs.Option.{option_map};
    ghost use Rattle.run_records.specs.Progress.{RunRecord, done_in, going_on};

    ghost Value = { RunRecord I R };

    ghost view = { λ t. going_on (done_in (option_map (λ b. b.value) t.lists) t.beginning) t.request t.is_open };
}

impl<I: Copy, R: Copy> Progress<I, R> {
    /// Nothing was done yet.
    pub fn new(alloc: Global) -> Self
        ensures { result ≡ no_record }
    {
        Progress {
            lists: None,
            request: None,
            beginning: Beginning::Nothing,
            is_open: false,
            alloc,
        }
    }

    /// Takes the reply to the last request. `verdict` is that of an answer, `node` its node if it is
    /// definite. A refusal leaves anything.
    #[inline(always)]
    pub fn receive(
        &mut self,
        reply: Reply<R>,
        verdict: Verdict,
        node: Option<NodeId>,
    ) -> Result<(), NoMemory>
        ensures { OnOk result (self.new ≡ received self.old reply verdict node) }
    {
        if let Some(lists) = &mut self.lists {
            return lists.receive(self.request, &mut self.is_open, reply, verdict, node);
        }
        if let Some(beginning) = beginning_after(self.beginning, self.request, reply) {
            self.beginning = beginning;
            self.is_open |= matches!(beginning, Beginning::InCandidate);
            return Ok(());
        }
        let mut lists = new_lists(self.alloc, self.beginning)?;
        lists.receive(self.request, &mut self.is_open, reply, verdict, node)?;
        self.lists = Some(lists);
        Ok(())
    }

    /// Whether the run has no lists, and needs them for the reply that comes now.
    #[inline(always)]
    pub(crate) fn needs_lists(&self, reply: Reply<R>) -> bool {
        self.lists.is_none() && beginning_after(self.beginning, self.request, reply).is_none()
    }

    /// Takes the lists of another run, for their memory, if there are none yet.
    pub(crate) fn take_lists(&mut self, mut lists: Box<Lists<I, R>>)
        ensures { self.new ≡ self.old }
    {
        if self.lists.is_none() && lists.restart(self.beginning).is_ok() {
            self.lists = Some(lists);
        }
    }

    /// The lists, if there are any: their memory may serve another run.
    pub(crate) fn into_lists(self) -> Option<Box<Lists<I, R>>> {
        self.lists
    }

    /// Notes the request that followed.
    pub fn note_request(&mut self, request: Request<I, R>)
        ensures { self.new ≡ requested self.old request }
    {
        self.request = Some(request);
    }

    /// The number of the fault that the request is, if it comes out of order now: 1, a candidate
    /// begins while one is open; 2, none is open that could end; 3, the candidate to be ignored isn't
    /// finished; 4, it is ignored already.
    pub fn order_fault(&self, request: Request<I, R>) -> Option<u8>
        ensures { result ≡ fault_of self.now request }
    {
        match request {
            Request::EnterCandidate if self.is_open => Some(1),
            Request::FinishCandidate if !self.is_open => Some(2),
            Request::Ignore(number) if number >= self.ignored().len() => Some(3),
            Request::Ignore(number) if self.ignored()[number] => Some(4),
            _ => None,
        }
    }

    /// Of each finished candidate, whether it is ignored.
    fn ignored(&self) -> &[bool]
        ensures { result.now ≡ self.now.ignored }
    {
        match &self.lists {
            Some(lists) => lists.ignored(),
            None => &[],
        }
    }

    /// The edges that a result of this verdict rests on: those of its answers outside ignored
    /// candidates, in the order of asking. The list has no room to spare, since the node of the run has
    /// it for good.
    #[inline(always)]
    pub fn edges(&self, verdict: Verdict) -> Result<Vec<Edge<I>>, NoMemory>
        ensures { IfOk result (λ edges. edges.items ≡ edges_of self.now verdict) }
    {
        match &self.lists {
            Some(lists) => lists.edges(verdict),
            None => Ok(Vec::new(self.alloc)),
        }
    }

    /// Whether a result of this verdict rests on the answer.
    pub fn is_rested_on(&self, answer: &DefiniteAnswer<I>, verdict: Verdict) -> bool
        ensures { result ≡ rests_on self.now.ignored verdict answer.now }
    {
        match &self.lists {
            Some(lists) => lists.is_rested_on(answer, verdict),
            None => answer.verdict == verdict,
        }
    }

    /// Appends the nodes of the definite answers, also of those in ignored candidates. A refusal may leave a part
    /// of them appended.
    pub fn push_targets(&self, nodes: &mut Vec<NodeId>) -> Result<(), NoMemory>
        ensures kept { (n : NodeId) → Contains nodes.old.items n → Contains nodes.new.items n }
        ensures answers { OnOk result (All (HasTarget nodes.new.items) self.now.answers) }
    {
        match &self.lists {
            Some(lists) => lists.push_targets(nodes),
            None => Ok(()),
        }
    }

    /// The replies, the oldest first, in a list that has no room to spare: the node of the run has it for good.
    pub fn replies(&self) -> Result<Vec<Reply<R>>, NoMemory>
        ensures { IfOk result (λ replies. replies.items ≡ self.now.replies) }
    {
        match &self.lists {
            Some(lists) => lists.replies(),
            None => first_replies(self.alloc, self.beginning),
        }
    }

    /// The definite answer at this place, in the order of asking.
    #[inline(always)]
    pub fn answer(&self, place: usize) -> Option<DefiniteAnswer<I>>
        ensures { result ≡ slice_get self.now.answers place }
    {
        match &self.lists {
            Some(lists) => lists.answer(place),
            None => None,
        }
    }

    /// How many definite answers there were.
    pub fn answer_count(&self) -> usize {
        match &self.lists {
            Some(lists) => lists.answer_count(),
            None => 0,
        }
    }

    /// Whether there are answers of this verdict to questions of this kind, and to others, also in ignored candidates.
    pub fn mixes_kinds(&self, kind: PathKind, verdict: Verdict) -> bool {
        match &self.lists {
            Some(lists) => lists.mixes_kinds(kind, verdict),
            None => false,
        }
    }

    /// The replies, the oldest first, of a run that has had an answer.
    pub fn listed_replies(&self) -> &[Reply<R>] {
        match &self.lists {
            Some(lists) => lists.replies_so_far(),
            None => &[],
        }
    }

    /// How many these are.
    pub fn count(&self) -> usize {
        self.listed_replies().len()
    }

    /// How many bytes of the heap the record holds.
    pub fn held_bytes(&self) -> usize {
        match &self.lists {
            Some(lists) => boxed_bytes(lists),
            None => 0,
        }
    }

    /// Forgets what was done, and keeps the memory.
    pub fn clear(&mut self)
        ensures { self.new ≡ no_record }
    {
        self.request = None;
        self.beginning = Beginning::Nothing;
        self.is_open = false;
        if let Some(lists) = &mut self.lists {
            lists.clear();
        }
    }
}

/// How many bytes of the heap the lists hold, with their box.
pub(crate) fn boxed_bytes<I: Copy, R: Copy>(lists: &Box<Lists<I, R>>) -> usize {
    bytes_for::<Lists<I, R>>(1).saturating_add(lists.held_bytes())
}

/// The lists of a run that has only begun. It stays out of `receive`, which seldom makes any.
#[inline(never)]
fn new_lists<I: Copy, R: Copy>(
    alloc: Global,
    beginning: Beginning,
) -> Result<Box<Lists<I, R>>, NoMemory>
    ensures { IfOk result (λ made. made.value ≡ begun beginning) }
{
    let mut lists = Lists::new(alloc);
    lists.restart(beginning)?;
    Ok(Box::new(alloc, lists)?)
}

/// How the run has begun once it has this reply, if that is still how most runs begin.
#[inline(always)]
fn beginning_after<I: Copy, R: Copy>(
    beginning: Beginning,
    request: Option<Request<I, R>>,
    reply: Reply<R>,
) -> Option<Beginning>
    ensures { IfSome result (λ after. (is_open : Bool) (verdict : Verdict) (node : Option NodeId) →
        going_on (begun after) request (is_open || is_in_candidate after)
        ≡ received (going_on (begun beginning) request is_open) reply verdict node) }
{
    match (beginning, request, reply) {
        (Beginning::Nothing, None, Reply::Begin) => Some(Beginning::Begun),
        (Beginning::Begun, Some(Request::EnterCandidate), Reply::Noted) => {
            Some(Beginning::InCandidate)
        }
        _ => None,
    }
}

/// The replies of such a beginning.
fn first_replies<R: Copy>(alloc: Global, beginning: Beginning) -> Result<Vec<Reply<R>>, NoMemory>
    ensures { IfOk result (λ replies. replies.items ≡ replies_of beginning) }
{
    let mut replies = Vec::new(alloc);
    match beginning {
        Beginning::Nothing => {}
        Beginning::Begun => {
            replies.reserve_exact(1)?;
            replies.push(Reply::Begin)?;
        }
        Beginning::InCandidate => {
            replies.reserve_exact(2)?;
            replies.push(Reply::Begin)?;
            replies.push(Reply::Noted)?;
        }
    }
    Ok(replies)
}
