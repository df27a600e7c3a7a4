//! Graphs in the language of Graphviz.

use crate::labels::Labelled;
use crate::words::letter;
use rule_tables::{Goal, Outcome};
use search_context::context::{Edge, Node};
use search_context::path::PathKind;
use std::io;
use std::io::Write;

/// What comes before the first question.
pub const START: &[u8] = b"digraph explain {
  node [fontname=\"sans-serif\"];
  edge [fontname=\"sans-serif\"];
";

/// What follows the last question: the legend, which says what shapes and lines mean, and the last brace.
pub const END: &[u8] = b"  subgraph cluster_legend {
    label=\"shapes are verdicts, lines are kinds of steps\";
    legend_yes [label=\"yes\", shape=box];
    legend_no [label=\"no\", shape=octagon];
    legend_maybe [label=\"maybe\", shape=diamond];
    legend_overflow [label=\"overflow\", shape=hexagon];
    legend_i [label=\"\", shape=point];
    legend_u [label=\"\", shape=point];
    legend_c [label=\"\", shape=point];
    legend_f [label=\"\", shape=point];
    legend_end [label=\"\", shape=point];
    legend_i -> legend_u [label=\"i: inductive\", style=solid];
    legend_u -> legend_c [label=\"u: unknown\", style=dotted];
    legend_c -> legend_f [label=\"c: coinductive\", style=dashed];
    legend_f -> legend_end [label=\"f: forced ambiguity\", style=bold];
  }
}
";

/// Writes one question's graph as a cluster. Without nodes it has one for the goal alone.
pub fn write_cluster<W: Write>(
    out: &mut W,
    shown: Labelled<'_>,
    number: usize,
    goal: Goal,
    outcome: Outcome,
    nodes: &[Node<Goal, Outcome>],
) -> io::Result<()> {
    let name = shown.name(goal);
    writeln!(
        out,
        "  subgraph cluster_{number} {{\n    label=\"{name} {outcome}\";"
    )?;
    let written = if nodes.is_empty() {
        write_node(out, shown, number, 0, goal, outcome)
    } else {
        write_nodes(out, shown, number, nodes)
    };
    written?;
    out.write_all(b"  }\n")
}

fn write_nodes<W: Write>(
    out: &mut W,
    shown: Labelled<'_>,
    number: usize,
    nodes: &[Node<Goal, Outcome>],
) -> io::Result<()> {
    for (place, node) in nodes.iter().enumerate() {
        write_node(out, shown, number, place, node.input, node.result)?;
        for edge in &node.edges {
            write_edge(out, number, place, *edge)?;
        }
    }
    Ok(())
}

fn write_node<W: Write>(
    out: &mut W,
    shown: Labelled<'_>,
    number: usize,
    place: usize,
    goal: Goal,
    outcome: Outcome,
) -> io::Result<()> {
    let name = shown.name(goal);
    let shape = shape(outcome);
    writeln!(
        out,
        "    n{number}_{place} [label=\"{name}\", shape={shape}];"
    )
}

fn write_edge<W: Write>(
    out: &mut W,
    number: usize,
    place: usize,
    edge: Edge<Goal>,
) -> io::Result<()> {
    let target = edge.target;
    let letter = letter(edge.kind);
    let style = style(edge.kind);
    let bend = bend(place, target);
    writeln!(
        out,
        "    n{number}_{place} -> n{number}_{target} [label=\"{letter}\", style={style}{bend}];"
    )
}

// An edge to a node that stands no later in the list does not push it down.
fn bend(place: usize, target: usize) -> &'static str {
    if target <= place {
        ", constraint=false"
    } else {
        ""
    }
}

fn shape(outcome: Outcome) -> &'static str {
    match outcome {
        Outcome::Yes => "box",
        Outcome::No => "octagon",
        Outcome::Maybe => "diamond",
        Outcome::Overflow => "hexagon",
    }
}

fn style(kind: PathKind) -> &'static str {
    match kind {
        PathKind::Inductive => "solid",
        PathKind::Unknown => "dotted",
        PathKind::Coinductive => "dashed",
        PathKind::ForcedAmbiguity => "bold",
    }
}
