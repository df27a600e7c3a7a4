//! The plan of a graph's text: which lines it has, in order. Each goal is shown once, where the walk down from the root
//! first meets it, and below it each of its edges has one line.
ghost use Rattle.std.specs.Prelude.{◌≡◌, ◌∷◌, ◌++◌, ℕ, [], false, IfOk, OnOk, Some, length, map, slice_get};
ghost use Rattle.graph_texts.specs.Plan.{AreCutBelow, AreFound, AreShownOnce, AreWhole, Expects, WasSeen, IsReplayed, ShowsSeen, left_out, pending_of, targets_of};
ghost use Rattle.graph_texts.specs.declared.plan.Line.TheVariants.{Again, Shown};
ghost use Rattle.graph_texts.specs.declared.plan.Mark.TheVariants.{Unseen};

use rule_tables::{Goal, Outcome};
use search_context::context::{Edge, NoMemory, Node};
use std::alloc::Global;

/// One line of the text of a graph.
#[derive(Clone, Copy)]
pub(crate) enum Line {
    /// A node, with what it rests on below it.
    Shown {
        place: usize,
        level: usize,
        number: usize,
    },
    /// A node that has its lines elsewhere. `closes` says that these lines are not at their end yet.
    Again {
        place: usize,
        level: usize,
        number: usize,
        closes: bool,
    },
    /// A node that lies deeper than is wanted, or one that is not there: a valid graph has none of these.
    Cut {
        place: usize,
        level: usize,
    },
}

// What is known of a node.
#[derive(Clone, Copy)]
enum Mark {
    Unseen,
    // Its lines are not at their end yet.
    Open(usize),
    Done(usize),
}

impl Mark {
    ghost use Rattle.graph_texts.specs.Plan.{is_unseen};

    fn is_unseen(self) -> bool
        ensures { result ≡ is_unseen self }
    {
        match self {
            Mark::Unseen => true,
            Mark::Open(_) | Mark::Done(_) => false,
        }
    }
}

// A node that is being shown, and its edges that have no line yet.
#[derive(Clone, Copy)]
struct Open<'a> {
    place: usize,
    rest: &'a [Edge<Goal>],
}

/// The lines of a graph's text.
#[derive(Drop)]
pub(crate) struct Planned {
    pub(crate) lines: Vec<Line>,
    /// How many nodes no line shows.
    pub(crate) left: usize,
}

/// The walk over a graph.
#[derive(Drop)]
struct Walk<'a> {
    most: usize,
    lines: Vec<Line>,
    marks: Vec<Mark>,
    stack: Vec<Open<'a>>,
    shown: usize,
}

/// The lines of the graph, with no node that lies deeper than `most` steps below the root. The time is linear in the nodes
/// and edges, and the native stack is as deep for each graph.
///
/// `NoMemory` where a growth was refused.
pub(crate) fn plan(
    alloc: Global,
    nodes: &[Node<Goal, Outcome>],
    most: usize,
) -> Result<Planned, NoMemory>
    ensures once { IfOk result (λ plan. AreShownOnce plan.lines.items) }
    ensures found { IfOk result (λ plan. AreFound plan.lines.items) }
    ensures whole { IfOk result (λ plan. AreWhole nodes.now plan.lines.items) }
    ensures deep { IfOk result (λ plan. AreCutBelow most (length nodes.now) plan.lines.items) }
    ensures left { IfOk result (λ plan.
        plan.left ≡ left_out (length nodes.now) plan.lines.items) }
{
    let mut walk = Walk {
        most,
        lines: Vec::new(alloc),
        marks: Vec::from_elem(alloc, Mark::Unseen, nodes.len())?,
        stack: Vec::new(alloc),
        shown: 0,
    };
    walk.meet(nodes, 0)?;
    for _ in 0..u64::MAX {
        if !walk.advance(nodes)? {
            let left = walk.left_out();
            return Ok(Planned {
                lines: walk.lines,
                left,
            });
        }
    }
    Err(NoMemory)
}

impl<'a> Walk<'a> {
    // Goes over the next edge of the newest open node, or leaves the node where it has none left. The answer is no where no
    // node is open.
    fn advance(&mut self, nodes: &'a [Node<Goal, Outcome>]) -> Result<bool, NoMemory>
        requires walk { ShowsSeen self.old.lines.items self.old.marks.items }
        requires replayed { IsReplayed nodes.now self.old.lines.items
            (pending_of self.old.stack.items) }
        requires deep { AreCutBelow self.old.most (length self.old.marks.items)
            self.old.lines.items }
        ensures walk { ShowsSeen self.new.lines.items self.new.marks.items }
        ensures deep { OnOk result (AreCutBelow self.new.most (length self.new.marks.items)
            self.new.lines.items) }
        ensures count { length self.new.marks.items ≡ length self.old.marks.items }
        ensures most { self.new.most ≡ self.old.most }
        ensures replayed { OnOk result
            (IsReplayed nodes.now self.new.lines.items (pending_of self.new.stack.items)) }
        ensures end { result ≡ Ok false → self.new.stack.items ≡ [] }
    {
        let Some(newest) = self.stack.pop() else {
            return Ok(false);
        };
        match newest.rest.split_first() {
            None => self.leave(newest.place),
            Some((edge, rest)) => {
                self.stack.push(Open {
                    place: newest.place,
                    rest,
                })?;
                self.meet(nodes, edge.target)?;
            }
        }
        Ok(true)
    }

    // How many nodes no line shows.
    fn left_out(&self) -> usize
        requires { ShowsSeen self.now.lines.items self.now.marks.items }
        ensures { result ≡ left_out (length self.now.marks.items) self.now.lines.items }
    {
        let mut left: usize = 0;
        for mark in &self.marks {
            if mark.is_unseen() {
                left += 1;
            }
        }
        left
    }

    fn mark_of(&self, place: usize) -> Option<Mark>
        ensures { result ≡ slice_get self.now.marks.items place }
    {
        self.marks.get(place).copied()
    }

    fn leave(&mut self, place: usize)
        requires { ShowsSeen self.old.lines.items self.old.marks.items }
        ensures walk { ShowsSeen self.new.lines.items self.new.marks.items }
        ensures rest { (self.new.lines ≡ self.old.lines) × (self.new.stack ≡ self.old.stack) }
        ensures count { length self.new.marks.items ≡ length self.old.marks.items }
        ensures most { self.new.most ≡ self.old.most }
    {
        if let Some(Mark::Open(number)) = self.mark_of(place) {
            self.marks[place] = Mark::Done(number);
        }
    }

    // One more line, of the node at this place.
    fn meet(&mut self, nodes: &'a [Node<Goal, Outcome>], place: usize) -> Result<(), NoMemory>
        requires walk { ShowsSeen self.old.lines.items self.old.marks.items }
        requires expected { Expects nodes.now self.old.lines.items place
            (pending_of self.old.stack.items) }
        requires deep { AreCutBelow self.old.most (length self.old.marks.items)
            self.old.lines.items }
        ensures walk { ShowsSeen self.new.lines.items self.new.marks.items }
        ensures deep { OnOk result (AreCutBelow self.new.most (length self.new.marks.items)
            self.new.lines.items) }
        ensures count { length self.new.marks.items ≡ length self.old.marks.items }
        ensures most { self.new.most ≡ self.old.most }
        ensures replayed { OnOk result
            (IsReplayed nodes.now self.new.lines.items (pending_of self.new.stack.items)) }
    {
        let level = self.stack.len();
        match self.mark_of(place) {
            Some(Mark::Unseen) if level <= self.most => self.show(nodes, place, level)?,
            Some(Mark::Open(number)) => self.again(place, level, number, true)?,
            Some(Mark::Done(number)) => self.again(place, level, number, false)?,
            Some(Mark::Unseen) => self.lines.push(Line::Cut { place, level })?,
            None => self.lines.push(Line::Cut { place, level })?,
        }
        Ok(())
    }
}

impl<'a> Walk<'a> {
    fn again(
        &mut self,
        place: usize,
        level: usize,
        number: usize,
        closes: bool,
    ) -> Result<(), NoMemory>
        requires walk { ShowsSeen self.old.lines.items self.old.marks.items }
        requires marked { WasSeen self.old.marks.items place number }
        ensures walk { ShowsSeen self.new.lines.items self.new.marks.items }
        ensures line { OnOk result (self.new.lines.items
            ≡ self.old.lines.items ++ Again place level number closes ∷ []) }
        ensures stack { self.new.stack ≡ self.old.stack }
        ensures marks { self.new.marks ≡ self.old.marks }
        ensures most { self.new.most ≡ self.old.most }
    {
        self.lines.push(Line::Again {
            place,
            level,
            number,
            closes,
        })?;
        Ok(())
    }

    fn show(
        &mut self,
        nodes: &'a [Node<Goal, Outcome>],
        place: usize,
        level: usize,
    ) -> Result<(), NoMemory>
        requires unseen { slice_get self.old.marks.items place ≡ Some Unseen }
        requires walk { ShowsSeen self.old.lines.items self.old.marks.items }
        ensures walk { ShowsSeen self.new.lines.items self.new.marks.items }
        ensures line { OnOk result ((number : ℕ) ×
            (self.new.lines.items ≡ self.old.lines.items ++ Shown place level number ∷ [])) }
        ensures stack { OnOk result (pending_of self.new.stack.items
            ≡ targets_of nodes.now place ∷ pending_of self.old.stack.items) }
        ensures count { length self.new.marks.items ≡ length self.old.marks.items }
        ensures most { self.new.most ≡ self.old.most }
    {
        let number = self.shown;
        self.shown = number.saturating_add(1);
        let rest = edges_of(nodes, place);
        self.stack.push(Open { place, rest })?;
        self.lines.push(Line::Shown {
            place,
            level,
            number,
        })?;
        self.marks[place] = Mark::Open(number);
        Ok(())
    }
}

// The edges of the node at this place.
fn edges_of(nodes: &[Node<Goal, Outcome>], place: usize) -> &[Edge<Goal>]
    ensures { map (λ edge. edge.target) result.now ≡ targets_of nodes.now place }
{
    match nodes.get(place) {
        Some(node) => node.edges.as_slice(),
        None => &[],
    }
}
