//! What was found last of the messages from one chain to another, or to any.
ghost use Rattle.std.specs.Prelude.{◌≡◌, min, map, IfOk, IsTrue, List, OnOk, slice_get};
ghost use Rattle.asset_bundles.specs.Books.{most_burned};
ghost use Rattle.asset_bundles.specs.Totals.{total_value};
ghost use Rattle.exec_base.specs.Part.{ChainPart};
ghost use Rattle.chain_state.specs.PartOf.{part_of};
ghost use Rattle.supply_audit.specs.declared.figures.Carried.{Carried};
ghost use Rattle.supply_audit.specs.declared.figures.Figure.TheVariants.{Sent};
ghost use Rattle.supply_audit.specs.RowPlaces.{place_share};
ghost use Rattle.supply_audit.specs.Found.{AreSentTo, IsRightOf};

use crate::Place;
use crate::figures::Carried;
use crate::hints::Hints;
use crate::messages::same_chain;
use crate::row_sums::{sum_in_row, sums_from};
use asset_bundles::Total;
use chain_ids::ChainId;
use chain_state::ChainState;
use std::alloc::{AllocError, Global};

/// A chain by its number, another by its name or none, and what the messages from the one carry to the other, or to any where none is given, row by
/// row, if that is known.
#[derive(Drop)]
pub(crate) struct LastFound {
    alloc: Global,
    known: bool,
    from: usize,
    to: Option<ChainId>,
    sums: Vec<Total>,
    hints: Hints,
}

/// Whether two targets are the same: a chain, or any where none is given.
#[tactic(auto, using(chain_ids::proofs::Lemmas::same_chain_told))]
fn is_same_target(one: Option<ChainId>, other: Option<ChainId>) -> bool
    ensures { IsTrue result → one ≡ other }
{
    match (one, other) {
        (None, None) => true,
        (Some(one), Some(other)) => same_chain(one, other),
        _ => false,
    }
}

impl LastFound {
    /// Nothing is known yet.
    pub(crate) fn nothing(alloc: Global) -> LastFound
        ensures { (what : Carried) (parts : List ChainPart) → IsRightOf result what parts }
    {
        LastFound {
            alloc,
            known: false,
            from: 0,
            to: None,
            sums: Vec::new(alloc),
            hints: Hints::none(),
        }
    }

    /// Whether it is of these chains.
    fn is_of(&self, from: usize, to: Option<ChainId>) -> bool
        ensures known { IsTrue result → IsTrue self.now.known }
        ensures from { IsTrue result → self.now.from ≡ from }
        ensures to { IsTrue result → self.now.to ≡ to }
    {
        if !self.known || self.from != from {
            return false;
        }
        is_same_target(self.to, to)
    }

    /// Looks at the messages from the chain of this number to the chain of this name, or to any, if these weren't asked for last.
    fn look(
        &mut self,
        what: Carried,
        chains: &[ChainState],
        from: usize,
        to: Option<ChainId>,
    ) -> Result<(), AllocError>
        requires { IsRightOf self.old what (map part_of chains.now) }
        ensures right { IsRightOf self.new what (map part_of chains.now) }
        ensures sums { OnOk result (AreSentTo what to
            (slice_get (map part_of chains.now) from) self.new.sums.items) }
    {
        if self.is_of(from, to) {
            return Ok(());
        }
        let sums = sums_from(self.alloc, &mut self.hints, what, chains, from, to)?;
        self.known = true;
        self.from = from;
        self.to = to;
        self.sums = sums;
        Ok(())
    }

    /// What the messages from a position's chain carry of the position's row to the chain of this name, or to any where none is given. The messages are
    /// looked at once for all rows that are asked for one after another. An `Err` is out of memory.
    pub(crate) fn sum(
        &mut self,
        what: Carried,
        chains: &[ChainState],
        place: Place,
        to: Option<ChainId>,
    ) -> Result<Total, AllocError>
        requires { IsRightOf self.old what (map part_of chains.now) }
        ensures right { IsRightOf self.new what (map part_of chains.now) }
        ensures sum { IfOk result (λ sum. total_value sum
            ≡ min (place_share (Sent what to) (map part_of chains.now) place) most_burned) }
    {
        self.look(what, chains, place.chain, to)?;
        Ok(sum_in_row(&self.sums, place.row))
    }
}
