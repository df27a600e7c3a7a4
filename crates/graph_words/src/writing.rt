//! Graphs as words: what is written.
ghost use Rattle.std.specs.Prelude.{◌≡◌, map, IfOk, OnOk};
ghost use Rattle.graph_words.specs.Words.{AreWordsOf, PutsWords, counted_words, edge_words, kind_word, node_words, outcome_word, plain_node, reply_word, reply_words, IsGoal};

use delegate_parts::Outcome;
use path_kinds::path::PathKind;
use search_context::context::{Edge, NoMemory, Node, Reply};
use std::alloc::Global;

/// The words of these nodes. The time is linear in their number.
///
/// `NoMemory` where a growth was refused.
pub fn words_of_nodes(alloc: Global, nodes: &[Node<u32, Outcome>]) -> Result<Vec<u64>, NoMemory>
    ensures { IfOk result (λ words. AreWordsOf words.items (map plain_node nodes.now)) }
{
    let mut words = Vec::new(alloc);
    for node in nodes {
        write_node(&mut words, node)?;
    }
    Ok(words)
}

fn write_node(words: &mut Vec<u64>, node: &Node<u32, Outcome>) -> Result<(), NoMemory>
    ensures written { OnOk result
        (PutsWords words.old.items words.new.items (node_words (plain_node node.now))) }
    ensures in_range { IsGoal node.now.input }
{
    words.push(node.input as u64)?;
    words.push(outcome_word(node.result))?;
    write_replies(words, &node.replies)?;
    write_edges(words, &node.edges)
}

fn write_replies(words: &mut Vec<u64>, replies: &[Reply<Outcome>]) -> Result<(), NoMemory>
    ensures { OnOk result
        (PutsWords words.old.items words.new.items (counted_words reply_words replies.now)) }
{
    words.push(replies.len() as u64)?;
    for reply in replies {
        words.push(reply_word(*reply))?;
    }
    Ok(())
}

fn write_edges(words: &mut Vec<u64>, edges: &[Edge<u32>]) -> Result<(), NoMemory>
    ensures { OnOk result
        (PutsWords words.old.items words.new.items (counted_words edge_words edges.now)) }
{
    words.push(edges.len() as u64)?;
    for edge in edges {
        words.push(kind_word(edge.kind))?;
        words.push(edge.target as u64)?;
    }
    Ok(())
}

fn outcome_word(outcome: Outcome) -> u64
    ensures { result ≡ outcome_word outcome }
{
    match outcome {
        Outcome::Yes => 0,
        Outcome::No => 1,
        Outcome::Maybe => 2,
        Outcome::Overflow => 3,
    }
}

fn reply_word(reply: Reply<Outcome>) -> u64
    ensures { result ≡ reply_word reply }
{
    match reply {
        Reply::Answer(outcome) => outcome_word(outcome),
        Reply::Noted => 4,
        Reply::Begin => 5,
    }
}

fn kind_word(kind: PathKind) -> u64
    ensures { result ≡ kind_word kind }
{
    match kind {
        PathKind::Inductive => 0,
        PathKind::Unknown => 1,
        PathKind::Coinductive => 2,
        PathKind::ForcedAmbiguity => 3,
    }
}
