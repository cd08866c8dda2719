//! The chains of a document, and the indices of their names.
ghost use Rattle.std.specs.Prelude.{◌≡◌, Some, IfOk, OnOk, take, if◌then◌else◌};
ghost use Rattle.std.specs.List.{list_any};
ghost use Rattle.chain_ids.specs.declared.chain.ChainId.{ChainId};
ghost use Rattle.chain_ids.specs.Chains.{same_chain};
ghost use Rattle.network_config.specs.Names.{named_place, first_place};

use chain_ids::ChainId;
use indexmap::IndexMap;
use network_spec::ChainSpec;
use std::alloc::{AllocError, Global};
use std::marker::Model;

/// The index of a name.
fn named_place(places: &IndexMap<ChainId, usize>, chain: ChainId) -> Option<usize>
    ensures { result ≡ named_place places.now.entries chain }
{
    match places.get(&chain) {
        Some(place) => Some(*place),
        None => None,
    }
}

/// Puts a name at an index.
fn put_name(
    places: &mut IndexMap<ChainId, usize>,
    chain: ChainId,
    at: usize,
) -> Result<(), AllocError>
    ensures { OnOk result ((q : ChainId) → named_place places.new.entries q
        ≡ (if same_chain chain q then Some at else named_place places.old.entries q)) }
{
    places.insert(chain, at)?;
    Ok(())
}

/// The chains of a document, with the index at which each name comes first.
#[derive(Drop)]
pub(crate) struct NamedChains<'a> {
    chains: &'a [ChainSpec],
    places: IndexMap<ChainId, usize>,
}

impl<'a> Model for NamedChains<'a> {
    ghost use Rattle.std.specs.Prelude.{List};
    ghost use Rattle.network_spec.specs.declared.chain.ChainSpec.{ChainSpec};
    ghost use Rattle.network_config.specs.Names.{AreFirstPlaces};

    ghost Value = { List ChainSpec };

    ghost view = { λ n. n.chains.now };

    ghost invariant = { λ n. AreFirstPlaces n.places.entries n.chains.now };
}

impl<'a> NamedChains<'a> {
    /// These chains, with the indices of their names.
    pub(crate) fn of(alloc: Global, chains: &'a [ChainSpec]) -> Result<NamedChains<'a>, AllocError>
        ensures { IfOk result (λ named. named ≡ chains.now) }
    {
        let mut places = IndexMap::with_capacity(alloc, chains.len())?;
        // From the last on, so that the first of a name stays.
        let mut at = chains.len();
        while at > 0 {
            at -= 1;
            put_name(&mut places, chains[at].chain, at)?;
        }
        Ok(NamedChains { chains, places })
    }

    /// The chains.
    pub(crate) fn items(&self) -> &[ChainSpec]
        ensures { result.now ≡ self.now }
    {
        self.chains
    }

    /// The index of the first chain of this name.
    fn first_place(&self, chain: ChainId) -> Option<usize>
        ensures { result ≡ first_place 0 self.now chain }
    {
        named_place(&self.places, chain)
    }

    /// Whether a chain has this name.
    pub(crate) fn has(&self, chain: ChainId) -> bool
        ensures { result ≡ list_any (λ c. same_chain c.chain chain) self.now }
    {
        self.first_place(chain).is_some()
    }

    /// Whether a chain before this index has this name.
    pub(crate) fn has_before(&self, at: usize, chain: ChainId) -> bool
        ensures { result ≡ list_any (λ c. same_chain c.chain chain) (take at self.now) }
    {
        match self.first_place(chain) {
            Some(place) => place < at,
            None => false,
        }
    }
}
