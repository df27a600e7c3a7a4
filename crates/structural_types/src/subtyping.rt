//! What is kept from one question about types to the next.
ghost use Rattle.structural_types.specs.Deciding.{KeepsDeciding};
ghost use Rattle.type_order.specs.Subtypes.{forms_of};

use delegate_parts::Lends;
use question_lists::ListsDelegate;
use search_graph::graph::SearchGraph;
use search_parts::global_cache::GlobalCache;
use type_order::{Pair, PairsOf, Types};

/// The delegate of subtypes, which has eight runs of a pair and the provisional cache.
pub type TypesDelegate<T> = ListsDelegate<PairsOf<T>, 8, 1>;

/// Decides which of the types that a `T` lends, as `&Types` does, are below which. What one question finds out is used in the next ones.
#[derive(Drop)]
pub struct Subtyping<T: Lends<Types>> {
    pub(crate) cache: GlobalCache<TypesDelegate<T>>,
    // Renewed for each question, which takes over the memory of the last one.
    pub(crate) graph: SearchGraph<TypesDelegate<T>>,
    // What is stored never keeps a question from being decided.
    ghost ready: { ∥ KeepsDeciding ⟦<Pair as PartialEq>⟧.eq (forms_of (T.lent_by cache.cx.0.0.lender)) cache ∥₁ },
}
