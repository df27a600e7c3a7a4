//! Laws of what goals mean, whatever the context is.
ghost use Rattle.std.specs.Prelude.{◌≡◌, ℕ, List};
ghost use Rattle.search_context.specs.Words.{GraphNode, IsProofGraph, IsRefutationGraph, IsPlainValue};

use crate::context::{Cx, Delegate};

/// No goal has both a proof graph and a refutation graph.
pub fn never_both<X: Cx>()
    ensures { (cx : X) (goal : X.Input) (nodes others : List (GraphNode X.Input)) (root top : ℕ) →
        IsProofGraph (X.proves cx) nodes root goal → IsRefutationGraph (X.refutes cx) others top goal → ⊥ }
{}

/// A goal has one plain value at most.
pub fn plain_value_is_one<D: Delegate>()
    ensures { (cx : D.Cx) (goal : D.Cx.Input) (n : ℕ) (r other : D.Cx.Result) →
        IsPlainValue (D.script cx) n goal r → IsPlainValue (D.script cx) n goal other → r ≡ other }
{}
