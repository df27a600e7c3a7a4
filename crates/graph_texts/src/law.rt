//! Laws of what a text names: in a valid graph it is so.
ghost use Rattle.std.specs.Prelude.{◌≡◌, ℕ, Contains, IfNone, IfSome, List, Option, slice_get, Some};
ghost use Rattle.std.specs.List.{AllZip};
ghost use Rattle.graph_texts.specs.Below.{Asking, Candidate, Coinductive, Goal, Inductive, IsValid, Node, Outcome, PathKind, Rules, candidates_of, is_no, is_yes};
ghost use Rattle.graph_texts.specs.Grounds.{AreQuestions, FailsAt, Holds};
ghost use Rattle.graph_texts.specs.Reasons.{NamesAnswered, NamesHolding, scripts_of};

/// Of each node of a graph that shows a no, a question is named for each rule of its goal, in order: it is a question of this
/// rule, and an edge leads for it to a node of its goal that says no.
pub fn named_questions_fail()
    ensures { (rules : Rules) (nodes : List (Node Goal Outcome)) (goal : Goal) →
        IsValid is_no Inductive (scripts_of rules) nodes goal →
        (place : ℕ) (node : Node Goal Outcome) → slice_get nodes place ≡ Some node →
        (questions : List (PathKind × Goal)) → AreQuestions node.edges.items questions →
        (named : List (Option Asking)) →
        AllZip (FailsAt questions) (candidates_of rules node.input) named →
        AllZip (NamesAnswered is_no nodes place) (candidates_of rules node.input) named }
{}

/// Of each node of a graph that shows a yes, a rule of its goal is named, and for all its questions edges lead to nodes of
/// their goals that say yes.
pub fn named_rules_hold()
    ensures { (rules : Rules) (nodes : List (Node Goal Outcome)) (goal : Goal) →
        IsValid is_yes Coinductive (scripts_of rules) nodes goal →
        (place : ℕ) (node : Node Goal Outcome) → slice_get nodes place ≡ Some node →
        (questions : List (PathKind × Goal)) → AreQuestions node.edges.items questions →
        (named : Option Candidate) →
        IfSome named (λ rule. Contains (candidates_of rules node.input) rule
        × Holds questions rule) →
        IfNone named ((rule : Candidate) → Contains (candidates_of rules node.input) rule →
        ¬ Holds questions rule) →
        NamesHolding is_yes nodes place (candidates_of rules node.input) named }
{}
