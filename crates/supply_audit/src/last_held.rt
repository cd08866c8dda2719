//! What was found last of an account that one chain has at another.
ghost use Rattle.std.specs.Prelude.{◌≡◌, map, get_or, IfOk, IsTrue, List, OnOk, Some, slice_get};
ghost use Rattle.exec_base.specs.Part.{ChainPart};
ghost use Rattle.trust_tables.specs.Accounts.{sovereign_account};
ghost use Rattle.chain_state.specs.PartOf.{part_of};
ghost use Rattle.supply_audit.specs.declared.figures.Figure.TheVariants.{Account};
ghost use Rattle.supply_audit.specs.RowPlaces.{place_share};
ghost use Rattle.supply_audit.specs.Held.{AreHeldBy, IsHeldRight};

use crate::Place;
use crate::messages::same_chain;
use crate::over_places::chain_of;
use chain_ids::ChainId;
use chain_state::ChainState;
use network_coherence::sovereign_account;
use std::alloc::{AllocError, Global};

/// A chain by its number and its name, another by its name, and what the latter's account at the former has, row by row, if that is known.
#[derive(Drop)]
pub(crate) struct LastHeld {
    alloc: Global,
    known: bool,
    at: usize,
    there: ChainId,
    here: ChainId,
    amounts: Vec<u128>,
}

/// What an account has at a chain, row by row of its list.
fn chain_amounts(chain: &ChainState, who: &[u8; 32]) -> Result<Vec<u128>, AllocError>
    ensures { IfOk result (λ amounts.
        AreHeldBy who.now (Some (part_of chain.now)) amounts.items) }
{
    let amounts = chain.ledger().account_sums(who)?;
    Ok(amounts)
}

/// The same at the chain of this number. An `Err` is out of memory.
#[inline(never)]
fn amounts_at(
    alloc: Global,
    chains: &[ChainState],
    at: usize,
    who: &[u8; 32],
) -> Result<Vec<u128>, AllocError>
    ensures { IfOk result (λ amounts.
        AreHeldBy who.now (slice_get (map part_of chains.now) at) amounts.items) }
{
    match chain_of(chains, at) {
        None => Ok(Vec::new(alloc)),
        Some(chain) => chain_amounts(chain, who),
    }
}

/// The amount of the row at this index; 0 past the end.
fn amount_in_row(amounts: &[u128], row: usize) -> u128
    ensures { result ≡ get_or amounts.now row 0 }
{
    match amounts.get(row) {
        None => 0,
        Some(amount) => *amount,
    }
}

impl LastHeld {
    /// Nothing is known yet.
    pub(crate) fn nothing(alloc: Global) -> LastHeld
        ensures { (parts : List ChainPart) → IsHeldRight result parts }
    {
        LastHeld {
            alloc,
            known: false,
            at: 0,
            there: ChainId::Relay,
            here: ChainId::Relay,
            amounts: Vec::new(alloc),
        }
    }

    /// Whether it is of these chains.
    #[tactic(auto, using(chain_ids::proofs::Lemmas::same_chain_told))]
    fn is_of(&self, at: usize, there: ChainId, here: ChainId) -> bool
        ensures known { IsTrue result → IsTrue self.now.known }
        ensures at { IsTrue result → self.now.at ≡ at }
        ensures there { IsTrue result → self.now.there ≡ there }
        ensures here { IsTrue result → self.now.here ≡ here }
    {
        if !self.known || self.at != at {
            return false;
        }
        same_chain(self.there, there) && same_chain(self.here, here)
    }

    /// Looks at the account at the chain of this number, if it wasn't asked for last.
    fn look(
        &mut self,
        chains: &[ChainState],
        at: usize,
        there: ChainId,
        here: ChainId,
    ) -> Result<(), AllocError>
        requires { IsHeldRight self.old (map part_of chains.now) }
        ensures right { IsHeldRight self.new (map part_of chains.now) }
        ensures amounts { OnOk result (AreHeldBy (sovereign_account there here)
            (slice_get (map part_of chains.now) at) self.new.amounts.items) }
    {
        if self.is_of(at, there, here) {
            return Ok(());
        }
        let who = sovereign_account(there, here);
        let amounts = amounts_at(self.alloc, chains, at, &who)?;
        self.known = true;
        self.at = at;
        self.there = there;
        self.here = here;
        self.amounts = amounts;
        Ok(())
    }

    /// What the account of the second chain at the first has of a position's row. The account is looked at once for all rows that are asked for one after
    /// another. An `Err` is out of memory.
    pub(crate) fn amount(
        &mut self,
        chains: &[ChainState],
        place: Place,
        there: ChainId,
        here: ChainId,
    ) -> Result<u128, AllocError>
        requires { IsHeldRight self.old (map part_of chains.now) }
        ensures right { IsHeldRight self.new (map part_of chains.now) }
        ensures amount { IfOk result (λ amount. amount
            ≡ place_share (Account (sovereign_account there here)) (map part_of chains.now) place) }
    {
        self.look(chains, place.chain, there, here)?;
        Ok(amount_in_row(&self.amounts, place.row))
    }
}
