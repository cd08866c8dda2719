//! The laws of networks that are valid. Each function is there for its contract, which is a law.
ghost use Rattle.std.specs.Prelude.{◌≡◌, ℕ, List, true, Ok};
ghost use Rattle.std.specs.List.{All};
ghost use Rattle.trust_tables.specs.Accounts.{IsChain};
ghost use Rattle.network_spec.specs.declared.chain.ChainSpec.{ChainSpec};
ghost use Rattle.network_spec.specs.declared.network.NetworkSpec.{NetworkSpec};
ghost use Rattle.network_config.specs.Network.{network_of};
ghost use Rattle.network_config.specs.Valid.{is_valid};
ghost use Rattle.network_steps.specs.Openable.{IsOpenable};

use network_config::law_of_documents;

/// A valid network, whose parachains' numbers are below 2^32 as those of a program are, is one that can open.
pub fn law_of_valid_networks()
    ensures { (spec : NetworkSpec) → All (λ (c : ChainSpec). IsChain c.chain) spec.chains
        → is_valid spec ≡ true → IsOpenable spec }
{}

/// The network that a document describes is one that can open.
pub fn law_of_read_networks()
    ensures opens { (bytes : List ℕ) (spec : NetworkSpec)
        → network_of bytes ≡ Ok spec → IsOpenable spec }
{
    law_of_documents();
}
