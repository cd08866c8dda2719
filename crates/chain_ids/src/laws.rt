//! What holds of the definitions themselves.
ghost use Rattle.std.specs.Prelude.{◌≡◌, ◌↔◌, IsTrue};
ghost use Rattle.chain_ids.specs.declared.chain.ChainId.{ChainId};
ghost use Rattle.chain_ids.specs.Chains.{same_chain};

/// The test that computes is true just of two names of one chain.
pub fn law_of_one_chain()
    ensures { (a b : ChainId) → IsTrue (same_chain a b) ↔ (a ≡ b) }
{}
