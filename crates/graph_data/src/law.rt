//! Laws of graphs as data.
ghost use Rattle.std.specs.Prelude.{◌≡◌, ℕ, List};
ghost use Rattle.json.specs.Token.{Token};
ghost use Rattle.graph_data.specs.Below.{Rules as SpecRules};
ghost use Rattle.graph_data.specs.Data.{claim_tokens, HaveOwnNames, IsClaim, PlainClaim};
ghost use Rattle.graph_data.specs.Page.{IsPage};
ghost use Rattle.graph_data.specs.Rules.{AreSameRules};

/// The tokens that spell a graph with its goal and its verdict spell no other one, whatever follows them, where no two goals
/// have one name. `write_answer` writes these tokens, and `read_claim` reads nothing else.
pub fn data_tells_its_graph()
    ensures { (names : List (List ℕ)) (written read : PlainClaim) (after rest : List Token) →
        HaveOwnNames names → IsClaim names written → IsClaim names read →
        claim_tokens names written after ≡ claim_tokens names read rest →
        (written ≡ read) × (after ≡ rest) }
{}

/// A page tells its rules and its claims: what is read of it are the same rules, and all its claims, in order.
pub fn page_tells_its_rules_and_claims()
    ensures { (page : List Token) (rules others : SpecRules) (written read : List PlainClaim) →
        IsPage page rules written → IsPage page others read →
        AreSameRules rules others × (read ≡ written) }
{}
