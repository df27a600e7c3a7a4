//! What is written of the questions, in each form.
ghost use Rattle.std.specs.Prelude.{◌≡◌, ◌∷◌, ◌++◌, ◌⊎◌, [], IfErr, IfOk, List, map, OnOk};
ghost use Rattle.std.specs.Io.KnownBytes.{Keeps};
ghost use Rattle.std.specs.Option.{option_map_or};
ghost use Rattle.graph_pages.specs.Below.{Goal as SpecGoal, Reads, Rules as SpecRules};
ghost use Rattle.graph_data.specs.Data.{plain_node, PlainClaim};
ghost use Rattle.graph_pages.specs.Shown.{claims_of, HasClaims};
ghost use Rattle.graph_data.specs.Page.{IsBegun, WritesPage};

use crate::answer::Came;
use crate::form::Form;
use crate::reason::write_reason;
use crate::stop::Stop;
use graph_data::writing::{write_answer, write_end as end_data, write_start as start_data};
use graph_texts::dot::{END, START, write_cluster};
use graph_texts::{Labelled, write_text};
use json::Writer;
use rule_tables::{Goal, Outcome, Rules};
use search_context::context::{Fault, Node};
use std::alloc::{AllocError, Global};
use std::io;
use std::io::Write;

/// What is to be written, as far as it waits.
#[derive(Drop)]
pub enum Page {
    Text { depth: usize, waiting: Vec<u8> },
    Dot { count: usize, waiting: Vec<u8> },
    Data(Writer<Global>),
}

impl Page {
    /// The beginning of a page about this text of rules.
    pub fn new(alloc: Global, form: Form, text: &[u8]) -> Result<Page, Stop>
        ensures begun { IfOk result
            (λ page. form ≡ Form.Data → (rules : SpecRules) → Reads text.now rules →
            HasClaims rules page []) }
        ensures fault { IfErr result (λ stop. stop ≡ Stop.Memory) }
    {
        let mut waiting = Vec::new(alloc);
        match form {
            Form::Text { depth } => Ok(Page::Text { depth, waiting }),
            Form::Dot => {
                waiting.extend_from_slice(START)?;
                Ok(Page::Dot { count: 0, waiting })
            }
            Form::Data => {
                let mut writer = Writer::new(waiting);
                start_data(&mut writer, text)?;
                Ok(Page::Data(writer))
            }
        }
    }

    /// Adds what a question came to.
    pub fn add(
        &mut self,
        alloc: Global,
        shown: Labelled<'_>,
        goal: Goal,
        came: &Came,
    ) -> Result<(), Stop>
        ensures added { OnOk result
            ((claims : List PlainClaim) → HasClaims shown.entry.rules.now self.old claims →
            HasClaims shown.entry.rules.now self.new (claims ++ claims_of goal came.now)) }
        ensures fault { IfErr result (λ stop. stop ≡ Stop.Memory) }
    {
        match self {
            Page::Text { depth, waiting } => {
                in_memory(add_text(alloc, waiting, shown, goal, came, *depth))
            }
            Page::Dot { count, waiting } => {
                let number = *count;
                *count = number.saturating_add(1);
                in_memory(add_dot(waiting, shown, number, goal, came))
            }
            Page::Data(writer) => {
                add_data(writer, shown.rules, goal, came)?;
                Ok(())
            }
        }
    }

    /// Writes what waits, unless all has to be written at once.
    pub fn pass_on<W: Write>(&mut self, out: &mut W) -> io::Result<()>
        ensures { OnOk result ((rules : SpecRules) (claims : List PlainClaim) →
            HasClaims rules self.old claims →
            HasClaims rules self.new claims × Keeps (W.contents out.old) (W.contents out.new)) }
    {
        match self {
            Page::Text { waiting, .. } | Page::Dot { waiting, .. } => {
                out.write_all(waiting.as_slice())?;
                waiting.clear();
                Ok(())
            }
            Page::Data(_) => Ok(()),
        }
    }

    /// Writes the rest.
    pub fn finish<W: Write>(self, out: &mut W) -> Result<(), Stop>
        ensures written { OnOk result ((rules : SpecRules) (claims : List PlainClaim) →
            HasClaims rules self claims → WritesPage rules claims (W.contents out.old) (W.contents out.new)) }
        ensures fault { IfErr result (λ stop. (stop ≡ Stop.InputOrOutput) ⊎ (stop ≡ Stop.Memory)) }
    {
        match self {
            Page::Text { waiting, .. } => out.write_all(waiting.as_slice())?,
            Page::Dot { waiting, .. } => {
                out.write_all(waiting.as_slice())?;
                out.write_all(END)?;
            }
            Page::Data(writer) => finish_data(writer, out)?,
        }
        out.flush()?;
        Ok(())
    }
}

// What a list of bytes refuses is memory.
fn in_memory(written: io::Result<()>) -> Result<(), Stop>
    ensures { IfErr result (λ stop. stop ≡ Stop.Memory) }
{
    match written {
        Ok(()) => Ok(()),
        Err(_) => Err(Stop::Memory),
    }
}

// The outcome with the nodes of its graph, which are none where it has no graph; nothing for a fault, and for a graph that was
// not accepted.
fn shown_of(came: &Came) -> Option<(Outcome, &[Node<Goal, Outcome>])>
    ensures { (goal : SpecGoal) → claims_of goal came.now ≡ option_map_or (λ shown.
        record { goal = goal; outcome = shown.0; nodes = map plain_node shown.1.now } ∷ []) result [] }
{
    match came {
        Came::Graph { outcome, nodes } => Some((*outcome, nodes.as_slice())),
        Came::NoGraph { outcome, .. } => Some((*outcome, &[])),
        Came::Unchecked(_) | Came::Fault(_) => None,
    }
}

fn add_data(
    writer: &mut Writer<Global>,
    rules: &Rules,
    goal: Goal,
    came: &Came,
) -> Result<(), AllocError>
    ensures { OnOk result ((claims : List PlainClaim) → IsBegun rules.now writer.old claims →
        IsBegun rules.now writer.new (claims ++ claims_of goal came.now)) }
{
    match shown_of(came) {
        Some((outcome, nodes)) => write_answer(writer, rules, goal, outcome, nodes),
        None => Ok(()),
    }
}

// Writes the page as far as it waits, and its end.
fn finish_data<W: Write>(mut writer: Writer<Global>, out: &mut W) -> Result<(), Stop>
    ensures written { OnOk result ((rules : SpecRules) (claims : List PlainClaim) →
        IsBegun rules writer claims → WritesPage rules claims (W.contents out.old) (W.contents out.new)) }
    ensures fault { IfErr result (λ stop. (stop ≡ Stop.InputOrOutput) ⊎ (stop ≡ Stop.Memory)) }
{
    end_data(&mut writer)?;
    let text = writer.into_inner();
    out.write_all(text.as_slice())?;
    out.write_all(b"\n")?;
    Ok(())
}

fn add_dot<W: Write>(
    out: &mut W,
    shown: Labelled<'_>,
    number: usize,
    goal: Goal,
    came: &Came,
) -> io::Result<()> {
    match shown_of(came) {
        Some((outcome, nodes)) => write_cluster(out, shown, number, goal, outcome, nodes),
        None => Ok(()),
    }
}

fn add_text<W: Write>(
    alloc: Global,
    out: &mut W,
    shown: Labelled<'_>,
    goal: Goal,
    came: &Came,
    depth: usize,
) -> io::Result<()> {
    let name = shown.name(goal);
    let written = match came {
        Came::Graph { nodes, .. } => write_text(alloc, out, shown, nodes, depth),
        Came::NoGraph { outcome, reason } => write_reason(out, shown, goal, *outcome, *reason),
        Came::Unchecked(outcome) => writeln!(out, "{name} {outcome} unchecked"),
        Came::Fault(fault) => {
            let word = fault_word(*fault);
            writeln!(out, "{name} fault {word}")
        }
    };
    written?;
    out.write_all(b"\n")
}

fn fault_word(fault: Fault<Goal, Outcome>) -> &'static str {
    match fault {
        Fault::Memory => "memory",
        Fault::Conflict { .. } => "conflict",
        Fault::Validation { .. } => "validation",
        Fault::Protocol(_) => "protocol",
    }
}
