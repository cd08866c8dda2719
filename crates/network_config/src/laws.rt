//! The law of network documents. The function has an empty body, and its contract is the law.
ghost use Rattle.std.specs.Prelude.{◌≡◌, ℕ, List, true, Ok};
ghost use Rattle.std.specs.List.{All};
ghost use Rattle.trust_tables.specs.Accounts.{IsChain};
ghost use Rattle.network_spec.specs.declared.chain.ChainSpec.{ChainSpec};
ghost use Rattle.network_spec.specs.declared.network.NetworkSpec.{NetworkSpec};
ghost use Rattle.network_config.specs.Network.{network_of};
ghost use Rattle.network_config.specs.Valid.{is_valid};

/// The network that a document describes is valid, and each parachain's number is below 2^32.
pub fn law_of_documents()
    ensures valid { (bytes : List ℕ) (spec : NetworkSpec)
        → network_of bytes ≡ Ok spec → is_valid spec ≡ true }
    ensures named { (bytes : List ℕ) (spec : NetworkSpec)
        → network_of bytes ≡ Ok spec → All (λ (c : ChainSpec). IsChain c.chain) spec.chains }
{}
