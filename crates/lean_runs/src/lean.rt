//! A run is replayed, so that its result rests on fewer answers.
ghost use Rattle.std.specs.Prelude.{◌≡◌, Contains, IfSome, IsTrue};
ghost use Rattle.open_graphs.specs.Graph.{cycle_kind};
ghost use Rattle.lean_runs.specs.Below.{edge_to, no_record, rank_of, verdict_of, verdicts, IsEdgeOfAnswer, CameTo};
ghost use Rattle.lean_runs.specs.Words.{verdict_shape, IsAnsweredAgain, IsBackedQuestion, IsGuided, IsLeanRun, IsRecordFor, LeadsTo};

use global_cache::GlobalCache;
use path_kinds::path::PathKind;
use run_records::progress::{DefiniteAnswer, Progress};
use run_records::runs::{Received, sort_of};
use search_context::context::{Cx, Delegate, Edge, NodeId, Reply, Request, Verdict};
use std::alloc::Global;
use std::marker::Model;

/// A call replays runs once it has written so many nodes: fewer are soon looked through and let go.
const FEW: usize = 512;

/// Each replay that comes to nothing takes one of so many chances, and each other one gives one back. Without a chance no
/// more runs of the call are replayed.
const MOST_CHANCES: usize = 64;

/// A question is looked for among so many answers on record, so that a replay takes time in proportion to its run.
const NEAR: usize = 32;

/// Which runs of a call are replayed, and the memory for it. Clauses see nothing of it.
#[derive(Drop)]
pub struct LeanRuns<I, R> {
    record: Progress<I, R>,
    /// The number of the call's first node.
    first_node: usize,
    /// How many more replays may come to nothing.
    chances: usize,
}

impl<I, R> Model for LeanRuns<I, R> {
    ghost use Rattle.std.specs.Prelude.{⊤};

    ghost Value = { ⊤ };

    ghost view = { λ s. tt };
}

impl<I: Copy, R: Copy> LeanRuns<I, R> {
    /// Those of a call whose first node gets this number.
    pub fn new(alloc: Global, first_node: usize) -> Self {
        LeanRuns {
            record: Progress::new(alloc),
            first_node,
            chances: MOST_CHANCES,
        }
    }

    /// Another call begins, whose first node gets this number.
    pub fn begin(&mut self, first_node: usize) {
        self.first_node = first_node;
        self.chances = MOST_CHANCES;
    }

    /// How many bytes of the heap the memory for it is.
    pub fn held_bytes(&self) -> usize {
        self.record.held_bytes()
    }

    /// Whether it is worth to replay a run that had so many replies, before the node of this number is written. Where the
    /// call has written few nodes there is little to spare, and where it has written fewer than the run had replies,
    /// the replay could take longer than the search.
    fn are_worth(&self, replies: usize, next_node: usize) -> bool {
        let written = next_node.saturating_sub(self.first_node);
        self.chances > 0 && FEW <= written && replies <= written
    }
}

/// How many chances there are after a replay that came to the result of its run, or did not.
fn chances_after(chances: usize, succeeds: bool) -> usize {
    if succeeds {
        chances.saturating_add(1).min(MOST_CHANCES)
    } else {
        chances.saturating_sub(1)
    }
}

/// How far a replay has come in the record of its run.
#[derive(Drop)]
struct Place {
    /// The place of the definite answer that comes next.
    answer: usize,
    /// The place behind the result of the last answer that was given again, among all replies.
    reply: usize,
    /// How many definite results stand before that place.
    results: usize,
    /// The node of the first answer that was given again and whose goal was worked out in this run.
    guide: Option<NodeId>,
    /// How many edges of that node were passed.
    passed: usize,
}

/// A run that came to a definite result, and what a replay of it looks at.
#[derive(Drop)]
pub struct Replayed<'cache, 'run, D: Delegate> {
    pub cache: &'cache GlobalCache<D>,
    /// The goal of the run.
    pub input: <D::Cx as Cx>::Input,
    /// The node of the run.
    pub own_node: NodeId,
    /// The record of the run.
    pub told: &'run Progress<<D::Cx as Cx>::Input, <D::Cx as Cx>::Result>,
    /// The verdict of its result.
    pub verdict: Verdict,
    /// Its result.
    pub outcome: <D::Cx as Cx>::Result,
}

impl<'cache, 'run, D: Delegate> Replayed<'cache, 'run, D> {
    /// The record by which the node of the result is finished: that of a replay which rests on fewer answers, if it is
    /// worth to replay the run and that came to the same result; else that of the run itself. It is not worth it for
    /// a goal in no cycle, which is worked out once.
    pub fn record_for_node(
        &self,
        lean: &'run mut LeanRuns<<D::Cx as Cx>::Input, <D::Cx as Cx>::Result>,
        is_in_cycle: bool,
    ) -> &'run Progress<<D::Cx as Cx>::Input, <D::Cx as Cx>::Result>
        requires { let run = self.now in
            CameTo (verdicts D.Cx.Cx) (D.script run.cache.now.cx run.input) run.told.now
            run.outcome }
        ensures { let run = self.now in
            IsRecordFor (verdicts D.Cx.Cx) (D.script run.cache.now.cx run.input) run.cache.now.nodes
            run.own_node.0 run.told.now run.verdict run.outcome result.now }
    {
        let kind = kind_of_cycles(self.verdict);
        let is_worth = is_in_cycle
            && lean.are_worth(self.told.count(), self.cache.next_node())
            && self.told.mixes_kinds(kind, self.verdict);
        if !is_worth {
            return self.told;
        }
        let record = &mut lean.record;
        record.clear();
        let succeeds = self.replay(record);
        lean.chances = chances_after(lean.chances, succeeds);
        if succeeds {
            return record;
        }
        self.told
    }

    /// Replays the run, and says whether the replay came to the same result; then `progress` is its record.
    ///
    /// A yes rests on coinductive questions wherever it can, and a no on inductive ones: only these are answered again
    /// as they were, and all others as if they were refused. Where goals ask each other by several kinds of steps, what
    /// such a result leads to is a small part of all that was found out on the way to it.
    fn replay(&self, progress: &mut Progress<<D::Cx as Cx>::Input, <D::Cx as Cx>::Result>) -> bool
        requires { progress.old ≡ no_record }
        ensures { let run = self.now in IsTrue result →
            IsLeanRun (verdicts D.Cx.Cx) (D.script run.cache.now.cx run.input) run.cache.now.nodes
            run.own_node.0 run.told.now run.verdict run.outcome progress.new }
    {
        let cx = self.cache.cx();
        let Some(mut frame) = D::start_replay(cx, self.input) else {
            return false;
        };
        let mut place = Place {
            answer: 0,
            reply: 0,
            results: 0,
            guide: None,
            passed: 0,
        };
        let mut received = Received::without_node(Reply::Begin);
        loop {
            let sort = sort_of(cx, received.reply);
            let Ok(_) = progress.receive(received.reply, sort, received.node) else {
                return false;
            };
            let Ok(request) = D::step_replay(&mut frame, received.reply) else {
                return false;
            };
            if progress.order_fault(request).is_some() {
                return false;
            }
            progress.note_request(request);
            received = match request {
                Request::Done(found) => return found == self.outcome,
                Request::Evaluate(kind, asked) => self.reply_to(&mut place, kind, asked),
                Request::EnterCandidate | Request::FinishCandidate | Request::Ignore(_) => {
                    Received::without_node(Reply::Noted)
                }
            };
        }
    }

    /// The reply to this question in the replay. It stays out of `replay`, whose loop would be slower by the room that this
    /// takes.
    #[inline(never)]
    fn reply_to(
        &self,
        place: &mut Place,
        kind: PathKind,
        input: <D::Cx as Cx>::Input,
    ) -> Received<<D::Cx as Cx>::Result>
        requires { IsGuided self.now.own_node.0 self.now.told.now self.now.verdict place.old.guide }
        ensures answered { let run = self.now in
            IsAnsweredAgain (verdicts D.Cx.Cx) run.cache.now.nodes run.own_node.0 run.told.now
            run.verdict kind input result }
        ensures guided { IsGuided self.now.own_node.0 self.now.told.now self.now.verdict
            place.new.guide }
    {
        if let Some(answer) = self.answer_again(place, kind, input) {
            return answer;
        }
        let refused = D::stack_overflow_result(self.cache.cx(), input);
        Received::without_node(Reply::Answer(refused))
    }

    /// The answer to this question on record, if it is given again. Its result is looked for last, so that the other
    /// questions take little time.
    fn answer_again(
        &self,
        place: &mut Place,
        kind: PathKind,
        input: <D::Cx as Cx>::Input,
    ) -> Option<Received<<D::Cx as Cx>::Result>>
        requires { IsGuided self.now.own_node.0 self.now.told.now self.now.verdict place.old.guide }
        ensures answered { let run = self.now in IfSome result
            (IsAnsweredAgain (verdicts D.Cx.Cx) run.cache.now.nodes run.own_node.0 run.told.now
            run.verdict kind input) }
        ensures guided { IsGuided self.now.own_node.0 self.now.told.now self.now.verdict
            place.new.guide }
    {
        let known = next_answer::<D::Cx>(self.told, &mut place.answer, kind, input)?;
        if kind != kind_of_cycles(self.verdict) || !self.told.is_rested_on(&known, self.verdict) {
            return None;
        }
        let result = latest_result(self.cache.cx(), self.told, place)?;
        let node = self.lead(place, kind, input, NodeId(known.edge.target));
        Some(Received {
            reply: Reply::Answer(result),
            node: Some(node),
        })
    }

    /// The node to which the edge of this question leads, which `node` answered. Where the goal of an earlier answer
    /// asked the same question, its node has an edge to a node that will do as well. With that one the answers of a run
    /// share what they lead to; with their own, a goal that is run several times would leave a graph of each run.
    fn lead(
        &self,
        place: &mut Place,
        kind: PathKind,
        input: <D::Cx as Cx>::Input,
        node: NodeId,
    ) -> NodeId
        requires kind { rank_of kind ≡ cycle_kind (verdict_shape self.now.verdict) }
        requires answer { let run = self.now in
            IsEdgeOfAnswer run.told.now.answers run.told.now.ignored run.verdict
            (edge_to kind input node) }
        requires guided { IsGuided self.now.own_node.0 self.now.told.now self.now.verdict
            place.old.guide }
        ensures backed { let run = self.now in
            IsBackedQuestion (verdicts D.Cx.Cx) run.cache.now.nodes run.own_node.0 run.told.now
            run.verdict kind input result }
        ensures guided { IsGuided self.now.own_node.0 self.now.told.now self.now.verdict
            place.new.guide }
    {
        let Some(guide) = place.guide else {
            // No goal's cycles lead to a node that was written in this run, so the goal of this one is done.
            if self.own_node.0 < node.0 {
                place.guide = Some(node);
            }
            return node;
        };
        match self.edge_of(guide, &mut place.passed, kind, input) {
            Some(further) => further,
            None => node,
        }
    }

    /// The node to which an edge of this node leads that asks this question, if it is near and the node has the verdict.
    /// The edge after it comes next.
    fn edge_of(
        &self,
        node: NodeId,
        passed: &mut usize,
        kind: PathKind,
        input: <D::Cx as Cx>::Input,
    ) -> Option<NodeId>
        ensures { IfSome result (λ further.
            LeadsTo (verdicts D.Cx.Cx) self.now.cache.now.nodes self.now.verdict node.0 kind input
            further.0) }
    {
        let known = self.cache.node(node)?;
        if !has_verdict(self.cache.cx(), known.result, self.verdict) {
            return None;
        }
        next_edge::<D::Cx>(known.edges.as_slice(), passed, kind, input)
    }
}

/// The next answer on record to this question from this place on, if it is near. The answer after it comes next.
fn next_answer<X: Cx>(
    told: &Progress<X::Input, X::Result>,
    place: &mut usize,
    kind: PathKind,
    input: X::Input,
) -> Option<DefiniteAnswer<X::Input>>
    ensures on_record { IfSome result (Contains told.now.answers) }
    ensures asks { IfSome result (λ known.
        known.edge ≡ edge_to kind input (record { 0 = known.edge.target })) }
{
    let end = told.answer_count().min(place.saturating_add(NEAR));
    for at in *place..end {
        let known = told.answer(at)?;
        if asks::<X>(&known.edge, kind, input) {
            *place = at + 1;
            return Some(known);
        }
    }
    None
}

/// The result of the answer that was passed last. The results of those that were not given again are passed with it, so
/// that each reply is passed once in a replay.
fn latest_result<X: Cx>(
    cx: X,
    told: &Progress<X::Input, X::Result>,
    place: &mut Place,
) -> Option<X::Result>
    ensures { place.new.guide ≡ place.old.guide }
{
    let replies = told.listed_replies();
    let mut result = None;
    for _ in place.results..place.answer {
        result = next_result(cx, replies, &mut place.reply);
    }
    place.results = place.answer;
    result
}

/// The next definite result among the replies from this place on, which is then the one behind it.
fn next_result<X: Cx>(cx: X, replies: &[Reply<X::Result>], place: &mut usize) -> Option<X::Result> {
    for at in *place..replies.len() {
        if let Reply::Answer(result) = replies[at] {
            if cx.sort(result) != Verdict::Neither {
                *place = at + 1;
                return Some(result);
            }
        }
    }
    None
}

/// The node to which an edge leads that asks this question, among those from this place on that are near. The edge after it
/// comes next.
fn next_edge<X: Cx>(
    edges: &[Edge<X::Input>],
    passed: &mut usize,
    kind: PathKind,
    input: X::Input,
) -> Option<NodeId>
    ensures { IfSome result (λ further. Contains edges.now (edge_to kind input further)) }
{
    let end = edges.len().min(passed.saturating_add(NEAR));
    for at in *passed..end {
        let edge = &edges[at];
        if asks::<X>(edge, kind, input) {
            *passed = at + 1;
            return Some(NodeId(edge.target));
        }
    }
    None
}

/// The kind that the cycles of a graph have which shows this verdict.
fn kind_of_cycles(verdict: Verdict) -> PathKind
    ensures { rank_of result ≡ cycle_kind (verdict_shape verdict) }
{
    match verdict {
        Verdict::Yes => PathKind::Coinductive,
        Verdict::No | Verdict::Neither => PathKind::Inductive,
    }
}

/// Whether the result has this verdict.
fn has_verdict<X: Cx>(cx: X, outcome: X::Result, verdict: Verdict) -> bool
    ensures { IsTrue result → verdict_shape verdict ≡ verdict_of (verdicts X.Cx) outcome }
{
    cx.sort(outcome) == verdict
}

/// Whether the edge asks this question.
fn asks<X: Cx>(edge: &Edge<X::Input>, kind: PathKind, input: X::Input) -> bool
    ensures { IsTrue result → edge.now ≡ edge_to kind input (record { 0 = edge.now.target }) }
{
    edge.kind == kind && edge.input == input
}
