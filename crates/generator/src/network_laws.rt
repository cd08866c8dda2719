//! What the document of the generator's network is. The function has an empty body, and its contract is the law.
ghost use Rattle.std.specs.Prelude.{◌≡◌, None, Ok};
ghost use Rattle.law_coherence.specs.Causes.{first_cause};
ghost use Rattle.network_config.specs.Network.{network_of};
ghost use Rattle.network_steps.specs.Genesis.{entries_of};
ghost use Rattle.generator.specs.Network.{document, described_network};

/// The document is accepted, and describes the network; and the network is coherent: none of the seven causes is found in it.
pub fn law_of_document()
    ensures accepted { network_of document ≡ Ok described_network }
    ensures coherent { first_cause (entries_of described_network) ≡ None }
{}
