//! Graphs as data: what is read. Nothing in it is trusted.
ghost use Rattle.std.specs.Prelude.{◌≡◌, ◌≢◌, ℕ, All, codes, List, map, IfErr, IfNone, IfOk, IfSome, ⊤};
ghost use Rattle.json.specs.Lex.{tokens};
ghost use Rattle.json.specs.Token.{Token as SpecToken};
ghost use Rattle.search_context.specs.declared.context.Edge.{Edge as SpecEdge};
ghost use Rattle.graph_data.specs.Below.{Goal as SpecGoal, names_of, Outcome as SpecOutcome, Reads, Reply as SpecReply, Rules as SpecRules, word_of};
ghost use Rattle.graph_data.specs.Data.{array_tokens, claim_tokens, edge_tokens, goal_tokens, HaveOwnNames, IsClaim, IsEdge, IsNamed, IsNode, kind_tokens, left_in, member_tokens, node_tokens, outcome_tokens, plain_claim, plain_node, PlainClaim, PlainNode, reply_tokens, reply_word, Spells, string_tokens};
ghost use Rattle.graph_data.specs.Ends.{claim_parts, edge_parts, node_parts, reply_parts};
ghost use Rattle.graph_data.specs.Page.{AreOfPage, HasRules, IsPage, text_of};
ghost use Rattle.graph_data.specs.Page.{IsPageText};
ghost use Rattle.graph_data.specs.Fault.{StopsUnless};

mod array;
mod source;

use crate::fault::DataFault;
use array::{Item, read_array};
use graph_texts::kind_of;
use json::{Reader, Scratch};
use rule_tables::{Goal, Outcome, ReadFault, Rules};
use search_context::context::{Edge, Node, Reply};
use search_context::path::PathKind;
use source::Source;
use std::alloc::Global;

/// What is said of a goal, with the graph that is to show it.
#[derive(Drop)]
pub struct Claim {
    pub goal: Goal,
    pub outcome: Outcome,
    pub nodes: Vec<Node<Goal, Outcome>>,
}

/// Data that was read.
#[derive(Drop)]
pub struct Claims {
    pub rules: Rules,
    pub all: Vec<Claim>,
}

/// The page that this text is. It is bad data if it is not UTF-8.
pub fn claims_of_text(alloc: Global, bytes: &[u8]) -> Result<Claims, DataFault>
    ensures read { IfOk result
        (λ claims. IsPage (tokens bytes.now) claims.rules (map plain_claim claims.all.items)) }
    ensures refused { IfErr result (StopsUnless (IsPageText bytes.now)) }
{
    let Ok(text) = std::str::from_utf8(bytes) else {
        return Err(DataFault::BadData(0));
    };
    let mut scratch = Scratch::new(alloc);
    let mut source = Source::new(Reader::new(text, &mut scratch)?);
    read_claims(alloc, &mut source)
}

// Reads data as `--json` writes it: the members of each object in the same order, and none beside them. `BadData` tells
// before which byte of the text something else was found, and `Memory` that memory is out.
fn read_claims(alloc: Global, source: &mut Source<'_>) -> Result<Claims, DataFault>
    ensures read { IfOk result
        (λ claims. IsPage (left_in source.old) claims.rules (map plain_claim claims.all.items)) }
    ensures refused { IfErr result (StopsUnless (AreOfPage (left_in source.old))) }
{
    let rules = read_rules(alloc, source)?;
    let all = read_array(alloc, source, &rules, "answers")?;
    source.end()?;
    Ok(Claims { rules, all })
}

// The beginning of the page, with the rules that its lines make.
fn read_rules(alloc: Global, source: &mut Source<'_>) -> Result<Rules, DataFault>
    ensures read { IfOk result (λ rules. HasRules (left_in source.old) rules (left_in source.new)) }
    ensures refused { IfErr result (StopsUnless ((rules : SpecRules) × (rest : List SpecToken)
        × HasRules (left_in source.old) rules rest)) }
{
    source.begin_object()?;
    let text = read_lines(alloc, source)?;
    rules_of(alloc, source, text.as_slice())
}

// The lines of rules, which stand in an array.
fn read_lines(alloc: Global, source: &mut Source<'_>) -> Result<Vec<u8>, DataFault>
    ensures spelled { IfOk result (λ text. (lines : List (List ℕ)) × (text.items ≡ text_of lines)
        × (left_in source.old ≡ member_tokens (codes "rules") (array_tokens string_tokens) lines
        (left_in source.new))) }
    ensures refused { IfErr result
        (StopsUnless (Spells (λ _. ⊤) (member_tokens (codes "rules") (array_tokens string_tokens))
        (left_in source.old))) }
{
    source.begin_array_at("rules")?;
    let mut text = Vec::new(alloc);
    for _ in 0..u64::MAX {
        if source.is_end_of_array() {
            return Ok(text);
        }
        let line = source.string()?;
        text.extend_from_slice(line.as_bytes())?;
        text.push(b'\n')?;
    }
    Err(DataFault::Memory)
}

// The rules of this text, which is bad data if a line is malformed.
fn rules_of(alloc: Global, source: &Source<'_>, text: &[u8]) -> Result<Rules, DataFault>
    ensures read { IfOk result (Reads text.now) }
    ensures refused { IfErr result (StopsUnless ((rules : SpecRules) × Reads text.now rules)) }
{
    match Rules::read(alloc, text) {
        Ok(rules) => Ok(rules),
        Err(ReadFault::BadLine(_)) => Err(source.fault()),
        Err(ReadFault::Memory) => Err(DataFault::Memory),
    }
}

fn read_claim(alloc: Global, source: &mut Source<'_>, rules: &Rules) -> Result<Claim, DataFault>
    ensures spelled { IfOk result (λ claim. left_in source.old
        ≡ claim_tokens (names_of rules.now) (plain_claim claim) (left_in source.new)) }
    ensures named { IfOk result (λ claim. IsClaim (names_of rules.now) (plain_claim claim)) }

    // What was written for a graph is read as the same graph, goal and outcome.
    ensures same { IfOk result (λ claim. (written : PlainClaim) (rest : List SpecToken) →
        HaveOwnNames (names_of rules.now) → IsClaim (names_of rules.now) written →
        left_in source.old ≡ claim_tokens (names_of rules.now) written rest → plain_claim claim ≡ written) }

    // It is read, unless memory is out.
    ensures refused { IfErr result (StopsUnless
        (Spells (IsClaim (names_of rules.now)) (claim_tokens (names_of rules.now)) (left_in source.old))) }
{
    read_members(alloc, source, rules)
}

// The members of a claim.
fn read_members(alloc: Global, source: &mut Source<'_>, rules: &Rules) -> Result<Claim, DataFault>
    ensures spelled { IfOk result (λ claim. left_in source.old
        ≡ claim_tokens (names_of rules.now) (plain_claim claim) (left_in source.new)) }
    ensures named { IfOk result (λ claim. IsClaim (names_of rules.now) (plain_claim claim)) }
    ensures refused { IfErr result (StopsUnless
        (Spells (IsClaim (names_of rules.now)) (claim_tokens (names_of rules.now)) (left_in source.old))) }
{
    source.begin_object()?;
    let goal = read_goal(source, rules)?;
    let outcome = read_outcome(source, "verdict")?;
    let nodes = read_array(alloc, source, rules, "nodes")?;
    source.end_object()?;
    Ok(Claim {
        goal,
        outcome,
        nodes,
    })
}

impl Item for Claim {
    ghost Plain = { PlainClaim };

    ghost plain = { plain_claim };

    ghost spelled = { claim_tokens };

    ghost is_right = { IsClaim };

    fn read(alloc: Global, source: &mut Source<'_>, rules: &Rules) -> Result<Claim, DataFault> {
        read_claim(alloc, source, rules)
    }

    ghost parts = { claim_parts };
}

impl Item for Node<Goal, Outcome> {
    ghost Plain = { PlainNode };

    ghost plain = { plain_node };

    ghost spelled = { node_tokens };

    ghost is_right = { IsNode };

    fn read(
        alloc: Global,
        source: &mut Source<'_>,
        rules: &Rules,
    ) -> Result<Node<Goal, Outcome>, DataFault> {
        source.begin_object()?;
        let input = read_goal(source, rules)?;
        let replies = read_array(alloc, source, rules, "replies")?;
        let result = read_outcome(source, "result")?;
        let edges = read_array(alloc, source, rules, "edges")?;
        source.end_object()?;
        Ok(Node {
            input,
            replies,
            edges,
            result,
        })
    }

    ghost parts = { node_parts };
}

impl Item for Reply<Outcome> {
    ghost Plain = { SpecReply SpecOutcome };

    ghost plain = { λ reply. reply };

    ghost spelled = { λ _. reply_tokens };

    ghost is_right = { λ _ _. ⊤ };

    fn read(
        _alloc: Global,
        source: &mut Source<'_>,
        _rules: &Rules,
    ) -> Result<Reply<Outcome>, DataFault> {
        let word = source.string()?;
        reply_of(word).ok_or(source.fault())
    }

    ghost parts = { λ _. reply_parts };
}

impl Item for Edge<Goal> {
    ghost Plain = { SpecEdge SpecGoal };

    ghost plain = { λ edge. edge };

    ghost spelled = { edge_tokens };

    ghost is_right = { IsEdge };

    fn read(
        _alloc: Global,
        source: &mut Source<'_>,
        rules: &Rules,
    ) -> Result<Edge<Goal>, DataFault> {
        source.begin_object()?;
        let kind = read_kind(source)?;
        let input = read_goal(source, rules)?;
        let target = source.number_at("target")?;
        source.end_object()?;
        Ok(Edge {
            kind,
            input,
            target,
        })
    }

    ghost parts = { edge_parts };
}

fn read_kind(source: &mut Source<'_>) -> Result<PathKind, DataFault>
    ensures spelled { IfOk result (λ kind.
        left_in source.old ≡ member_tokens (codes "kind") kind_tokens kind (left_in source.new)) }
    ensures refused { IfErr result (StopsUnless
        (Spells (λ _. ⊤) (member_tokens (codes "kind") kind_tokens) (left_in source.old))) }
{
    let letter = source.string_at("kind")?;
    kind_of(letter).ok_or(source.fault())
}

// A goal by its name, which the rules have to mention.
fn read_goal(source: &mut Source<'_>, rules: &Rules) -> Result<Goal, DataFault>
    ensures spelled { IfOk result (λ goal. left_in source.old
        ≡ member_tokens (codes "goal") (goal_tokens (names_of rules.now)) goal (left_in source.new)) }
    ensures named { IfOk result (IsNamed (names_of rules.now)) }
    ensures refused { IfErr result (StopsUnless (Spells (IsNamed (names_of rules.now))
        (member_tokens (codes "goal") (goal_tokens (names_of rules.now))) (left_in source.old))) }
{
    let name = source.string_at("goal")?;
    rules.goal(name.as_bytes()).ok_or(source.fault())
}

// An outcome, under this key.
fn read_outcome(source: &mut Source<'_>, wanted: &str) -> Result<Outcome, DataFault>
    ensures spelled { IfOk result (λ outcome.
        left_in source.old ≡ member_tokens wanted.now outcome_tokens outcome (left_in source.new)) }
    ensures refused { IfErr result (StopsUnless
        (Spells (λ _. ⊤) (member_tokens wanted.now outcome_tokens) (left_in source.old))) }
{
    let word = source.string_at(wanted)?;
    outcome_of(word).ok_or(source.fault())
}

fn outcome_of(word: &str) -> Option<Outcome>
    ensures some { IfSome result (λ outcome. word.now ≡ word_of outcome) }
    ensures none { IfNone result ((outcome : SpecOutcome) → word.now ≢ word_of outcome) }
{
    match word {
        "yes" => Some(Outcome::Yes),
        "no" => Some(Outcome::No),
        "maybe" => Some(Outcome::Maybe),
        "overflow" => Some(Outcome::Overflow),
        _ => None,
    }
}

fn reply_of(word: &str) -> Option<Reply<Outcome>>
    ensures some { IfSome result (λ reply. word.now ≡ reply_word reply) }
    ensures none { IfNone result ((reply : SpecReply SpecOutcome) → word.now ≢ reply_word reply) }
{
    match word {
        "begin" => Some(Reply::Begin),
        "noted" => Some(Reply::Noted),
        _ => outcome_of(word).map(Reply::Answer),
    }
}
