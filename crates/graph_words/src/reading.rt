//! Graphs as words: what is read. Nothing in it is trusted.
ghost use Rattle.std.specs.Prelude.{◌≡◌, List, map, IfErr, IfOk, ⊤};
ghost use Rattle.graph_words.specs.Fault.{StopsUnless};
ghost use Rattle.graph_words.specs.Words.{AreWordsOf, PlainNode, Spells, counted_words, edge_words, goal_at, goals_of, left_in, named, named_node, node_words, plain_node, reply_words, IsNode};

mod source;

use crate::fault::WordsFault;
use delegate_parts::Outcome;
use search_context::context::{Edge, Node, Reply};
use source::Source;
use std::alloc::{AllocError, Global};

/// The nodes of which these are the words. The time is linear in their number, and so is the memory, whatever they say of
/// how many replies and edges there are.
///
/// A target that is no place of a node is read, and its edge is of goal 0: no checker accepts such a graph. `NoGraph` where
/// the words end within a node, and where one of them is none that can stand there. `Memory` where a growth was refused.
pub fn nodes_of_words(alloc: Global, words: &[u64]) -> Result<Vec<Node<u32, Outcome>>, WordsFault>
    // What is read are their nodes, and others are so only if they differ in the goals of edges.
    ensures read { IfOk result (λ nodes. AreWordsOf words.now (map plain_node nodes.items)) }
    ensures same { IfOk result (λ nodes. (others : List PlainNode) → AreWordsOf words.now others →
        map plain_node nodes.items ≡ named others) }
    ensures refused { IfErr result
        (StopsUnless ((nodes : List PlainNode) × AreWordsOf words.now nodes)) }
{
    let mut nodes = read_nodes(alloc, words)?;
    let goals = goals_of(alloc, nodes.as_slice())?;
    for node in nodes.iter_mut() {
        name_targets(node, goals.as_slice());
    }
    Ok(nodes)
}

// The goal of each node.
fn goals_of(alloc: Global, nodes: &[Node<u32, Outcome>]) -> Result<Vec<u32>, AllocError>
    ensures { IfOk result (λ goals. goals.items ≡ goals_of (map plain_node nodes.now)) }
{
    let mut goals = Vec::new(alloc);
    for node in nodes {
        goals.push(node.input)?;
    }
    Ok(goals)
}

// Each edge gets its target's goal, if it has one.
fn name_targets(node: &mut Node<u32, Outcome>, goals: &[u32])
    ensures { plain_node node.new ≡ named_node goals.now (plain_node node.old) }
{
    for edge in node.edges.iter_mut() {
        edge.input = goal_at(goals, edge.target);
    }
}

// The goal at a place, or 0 where there is none.
fn goal_at(goals: &[u32], place: usize) -> u32
    ensures { result ≡ goal_at goals.now place }
{
    goals.get(place).copied().unwrap_or(0)
}

// The nodes, whose edges are all of goal 0.
fn read_nodes(alloc: Global, words: &[u64]) -> Result<Vec<Node<u32, Outcome>>, WordsFault>
    ensures read { IfOk result (λ nodes. AreWordsOf words.now (map plain_node nodes.items)) }
    ensures refused { IfErr result
        (StopsUnless ((nodes : List PlainNode) × AreWordsOf words.now nodes)) }
{
    let mut source = Source::new(words);
    let mut nodes = Vec::new(alloc);
    while !source.is_at_end() {
        nodes.push(read_node(alloc, &mut source)?)?;
    }
    Ok(nodes)
}

fn read_node(alloc: Global, source: &mut Source<'_>) -> Result<Node<u32, Outcome>, WordsFault>
    ensures read { IfOk result (λ node.
        left_in source.old ≡ node_words (plain_node node) (left_in source.new)) }
    ensures in_range { IfOk result (λ node. IsNode (plain_node node)) }
    ensures refused { IfErr result (StopsUnless (Spells IsNode node_words (left_in source.old))) }
{
    let input = source.goal()?;
    let result = source.outcome()?;
    let replies = read_replies(alloc, source)?;
    let edges = read_edges(alloc, source)?;
    Ok(Node {
        replies,
        edges,
        input,
        result,
    })
}

fn read_replies(alloc: Global, source: &mut Source<'_>) -> Result<Vec<Reply<Outcome>>, WordsFault>
    ensures read { IfOk result (λ replies.
        left_in source.old ≡ counted_words reply_words replies.items (left_in source.new)) }
    ensures refused { IfErr result (StopsUnless
        (Spells (λ _. ⊤) (counted_words reply_words) (left_in source.old))) }
{
    let count = source.word()?;
    let mut replies = Vec::new(alloc);
    for _ in 0..count {
        replies.push(source.reply()?)?;
    }
    Ok(replies)
}

fn read_edges(alloc: Global, source: &mut Source<'_>) -> Result<Vec<Edge<u32>>, WordsFault>
    ensures read { IfOk result (λ edges.
        left_in source.old ≡ counted_words edge_words edges.items (left_in source.new)) }
    ensures refused { IfErr result (StopsUnless
        (Spells (λ _. ⊤) (counted_words edge_words) (left_in source.old))) }
{
    let count = source.word()?;
    let mut edges = Vec::new(alloc);
    for _ in 0..count {
        edges.push(source.edge()?)?;
    }
    Ok(edges)
}
