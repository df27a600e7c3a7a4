//! Graphs as data: what is written.
ghost use Rattle.std.specs.Prelude.{◌≡◌, ◌∷◌, ℕ, codes, List, OnOk, map};
ghost use Rattle.std.specs.Bool.{MatchBool};
ghost use Rattle.std.specs.Str.{IsUtf8};
ghost use Rattle.json.specs.Token.{begin_array, begin_object, end_array, end_object, key};
ghost use Rattle.rule_tables.specs.Grammar.{Nothing, Says};
ghost use Rattle.graph_data.specs.Below.{names_of, word_of};
ghost use Rattle.graph_data.specs.Data.{array_tokens, claim_tokens, edge_tokens, HaveTexts, list_tokens, member_tokens, node_tokens, plain_node, PutsTokens, reply_tokens, reply_word, string_tokens};
ghost use Rattle.graph_data.specs.Page.{begun_page, text_of};
ghost use Rattle.graph_data.specs.Rules.{MakesTheSame, SayTheSame};

use graph_texts::{letter, name_of, word};
use json::Writer;
use line_texts::Words;
use rule_tables::{Goal, Outcome, Rules};
use search_context::context::{Edge, Node, Reply};
use std::alloc::{AllocError, Global};

/// Writes what comes before the first answer: the lines of the text that say something, as the rules that the graphs are
/// about.
pub fn write_start(writer: &mut Writer<Global>, text: &[u8]) -> Result<(), AllocError>
    ensures { OnOk result ((lines : List (List ℕ)) × MakesTheSame text.now (text_of lines)
        × PutsTokens writer.old writer.new (begun_page lines)) }
{
    write_rules(writer, text)?;
    begin_array_at(writer, "answers")?;
    Ok(())
}

// The beginning of the page, with the lines of rules.
fn write_rules(writer: &mut Writer<Global>, text: &[u8]) -> Result<(), AllocError>
    ensures { OnOk result ((lines : List (List ℕ)) × MakesTheSame text.now (text_of lines)
        × PutsTokens writer.old writer.new (λ rest.
        begin_object ∷ key (codes "rules") ∷ array_tokens string_tokens lines rest)) }
{
    writer.begin_object()?;
    begin_array_at(writer, "rules")?;
    for line in text.split(|byte| *byte == b'\n') {
        write_line(writer, line)?;
    }
    writer.end_array()?;
    Ok(())
}

// A key, and the beginning of the array that is its value.
fn begin_array_at(writer: &mut Writer<Global>, name: &str) -> Result<(), AllocError>
    ensures { OnOk result (PutsTokens writer.old writer.new (λ rest.
        key name.now ∷ begin_array ∷ rest)) }
{
    writer.key(name)?;
    writer.begin_array()
}

// A key, and the string that is its value.
fn string_at(writer: &mut Writer<Global>, name: &str, text: &str) -> Result<(), AllocError>
    ensures { OnOk result (PutsTokens writer.old writer.new
        (member_tokens name.now string_tokens text.now)) }
{
    writer.key(name)?;
    writer.string(text)
}

// Writes the line, if it says something.
fn write_line(writer: &mut Writer<Global>, line: &[u8]) -> Result<(), AllocError>
    ensures { OnOk result ((lines : List (List ℕ)) × SayTheSame line.now lines
        × PutsTokens writer.old writer.new (list_tokens string_tokens lines)) }
{
    if says_something(line) {
        writer.string(text_of_line(line))?;
    }
    Ok(())
}

// Whether the line is neither empty nor a comment.
fn says_something(line: &[u8]) -> bool
    ensures { MatchBool result (¬ (Says line.now Nothing)) (Says line.now Nothing) }
{
    match Words::new(line).next() {
        None | Some([b'#', ..]) => false,
        Some(_) => true,
    }
}

// The line as text, which one that the grammar allows is unless it says nothing.
fn text_of_line(line: &[u8]) -> &str
    ensures { IsUtf8 line.now → result.now ≡ line.now }
{
    std::str::from_utf8(line).unwrap_or("")
}

/// Writes what follows the last answer.
pub fn write_end(writer: &mut Writer<Global>) -> Result<(), AllocError>
    ensures { OnOk result (PutsTokens writer.old writer.new (λ rest.
        end_array ∷ end_object ∷ rest)) }
{
    writer.end_array()?;
    writer.end_object()
}

/// Writes one answer with its graph. One without a graph has no nodes.
pub fn write_answer(
    writer: &mut Writer<Global>,
    rules: &Rules,
    goal: Goal,
    outcome: Outcome,
    nodes: &[Node<Goal, Outcome>],
) -> Result<(), AllocError>
    ensures { HaveTexts (names_of rules.now) →
        OnOk result (PutsTokens writer.old writer.new (claim_tokens (names_of rules.now)
        (record { goal = goal; outcome = outcome; nodes = map plain_node nodes.now }))) }
{
    writer.begin_object()?;
    string_at(writer, "goal", name_of(rules, goal))?;
    string_at(writer, "verdict", word(outcome))?;
    write_nodes(writer, rules, nodes)?;
    writer.end_object()
}

fn write_nodes(
    writer: &mut Writer<Global>,
    rules: &Rules,
    nodes: &[Node<Goal, Outcome>],
) -> Result<(), AllocError>
    ensures { HaveTexts (names_of rules.now) → OnOk result (PutsTokens writer.old writer.new
        (member_tokens (codes "nodes") (array_tokens (node_tokens (names_of rules.now)))
        (map plain_node nodes.now))) }
{
    begin_array_at(writer, "nodes")?;
    for node in nodes {
        write_node(writer, rules, node)?;
    }
    writer.end_array()?;
    Ok(())
}

fn write_node(
    writer: &mut Writer<Global>,
    rules: &Rules,
    node: &Node<Goal, Outcome>,
) -> Result<(), AllocError>
    ensures { HaveTexts (names_of rules.now) → OnOk result
        (PutsTokens writer.old writer.new (node_tokens (names_of rules.now) (plain_node node.now))) }
{
    writer.begin_object()?;
    string_at(writer, "goal", name_of(rules, node.input))?;
    write_replies(writer, &node.replies)?;
    string_at(writer, "result", word(node.result))?;
    write_edges(writer, rules, &node.edges)?;
    writer.end_object()
}

fn write_edges(
    writer: &mut Writer<Global>,
    rules: &Rules,
    edges: &[Edge<Goal>],
) -> Result<(), AllocError>
    ensures { HaveTexts (names_of rules.now) → OnOk result (PutsTokens writer.old writer.new
        (member_tokens (codes "edges") (array_tokens (edge_tokens (names_of rules.now))) edges.now)) }
{
    begin_array_at(writer, "edges")?;
    for edge in edges {
        write_edge(writer, rules, *edge)?;
    }
    writer.end_array()?;
    Ok(())
}

fn write_replies(writer: &mut Writer<Global>, replies: &[Reply<Outcome>]) -> Result<(), AllocError>
    ensures { OnOk result (PutsTokens writer.old writer.new
        (member_tokens (codes "replies") (array_tokens reply_tokens) replies.now)) }
{
    begin_array_at(writer, "replies")?;
    for reply in replies {
        writer.string(word_of_reply(*reply))?;
    }
    writer.end_array()?;
    Ok(())
}

fn word_of_reply(reply: Reply<Outcome>) -> &'static str
    ensures { result.now ≡ reply_word reply }
{
    match reply {
        Reply::Begin => "begin",
        Reply::Noted => "noted",
        Reply::Answer(outcome) => word(outcome),
    }
}

fn write_edge(
    writer: &mut Writer<Global>,
    rules: &Rules,
    edge: Edge<Goal>,
) -> Result<(), AllocError>
    ensures { HaveTexts (names_of rules.now) → OnOk result
        (PutsTokens writer.old writer.new (edge_tokens (names_of rules.now) edge)) }
{
    writer.begin_object()?;
    string_at(writer, "kind", letter(edge.kind))?;
    string_at(writer, "goal", name_of(rules, edge.input))?;
    writer.key("target")?;
    writer.u64(edge.target as u64)?;
    writer.end_object()
}
