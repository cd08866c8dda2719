//! What a network keeps.
ghost use Rattle.std.specs.Prelude.{◌≡◌, IsTrue, length, false};
ghost use Rattle.chain_net.specs.Order.{are_in_order};
ghost use Rattle.chain_net.specs.Chains.{names_of, world_in};
ghost use Rattle.chain_net.specs.Links.{found_links};
ghost use Rattle.chain_net.specs.Sound.{AreBetweenSteps, AreBetweenSteps-prop, HasSomePast-prop};
ghost use Rattle.law_nets.specs.Runs.{HasSomePast};

use crate::links::Link;
use chain_ids::ChainId;
use chain_state::ChainState;
use exec_rules::ChainRules;
use network_spec::NetworkSpec;

/// A network of chains: what its document says, and each chain's state, in the order of the document, with how it runs programs. The
/// chains rise: the relay chain, then parachains by their numbers. Unless it is stopped, steps led from the first world of the
/// document to where it is, so what holds after any steps holds of it.
#[derive(Drop)]
pub struct Net {
    pub(crate) spec: NetworkSpec,
    pub(crate) names: Vec<ChainId>,
    pub(crate) rules: Vec<ChainRules>,
    pub(crate) chains: Vec<ChainState>,
    pub(crate) links: Vec<Link>,
    pub(crate) acted: Option<usize>,
    pub(crate) stopped: bool,
    ghost order: { IsTrue (are_in_order names.items) },
    ghost ruled: { length rules.items ≡ length chains.items },
    ghost named: { names_of chains.items ≡ names.items },
    ghost linked: { links.items ≡ found_links names.items chains.items spec.channels },
    ghost between: { stopped ≡ false
        → AreBetweenSteps chains.items } by { AreBetweenSteps-prop stopped chains.items },
    ghost reached: { stopped ≡ false → HasSomePast spec
        (world_in rules.items chains.items) } by { HasSomePast-prop stopped spec
            (world_in rules.items chains.items) },
}
