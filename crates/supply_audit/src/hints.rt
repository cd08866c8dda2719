//! Where assets were found last among a chain's rows.
ghost use Rattle.std.specs.Prelude.{◌≡◌, ◌<◌, Some, IsTrue, slice_get};
ghost use Rattle.std.specs.List.{IsDistinct};
ghost use Rattle.std.specs.Ordering.{eq_by_cmp};
ghost use Rattle.asset_lists.specs.Listed.{listed_cmp, listed_of};
ghost use Rattle.asset_lists.specs.Units.{unit_of};
ghost use Rattle.trust_tables.specs.Trust.{listing};
ghost use Rattle.ledgers.specs.Ledgers.{number_in};

use crate::messages::is_asset;
use asset_lists::{Asset, AssetId};
use ledgers::Ledger;
use locations::Junction;
use trust_tables::AssetRow;

/// For speed: the rows where assets were found last, by how their ids end. A hint may be of another asset or of another chain, so it counts only where
/// the row is of the asset.
#[derive(Clone, Copy)]
pub(crate) struct Hints {
    rows: [usize; 64],
}

/// A number below 64 by a junction. Ids of one chain usually end with different numbers.
fn slot_of_junction(junction: &Junction) -> usize
    ensures { result < 64 }
{
    match junction {
        Junction::Parachain(number) => (*number % 64) as usize,
        Junction::PalletInstance(number) => (*number % 64) as usize,
        Junction::GeneralIndex(number) => (*number % 64) as usize,
        _ => 0,
    }
}

/// The same by the last of these junctions.
fn slot_of_last(junctions: &[Junction]) -> usize
    ensures { result < 64 }
{
    match junctions.last() {
        None => 0,
        Some(junction) => slot_of_junction(junction),
    }
}

/// The same by an id.
fn slot_of(id: &AssetId) -> usize
    ensures { result < 64 }
{
    match id {
        AssetId::Concrete(place) => slot_of_last(place.interior.items()),
        AssetId::Abstract(_) => 0,
    }
}

/// Whether the row at this index is of the asset.
fn is_at(rows: &[AssetRow], index: usize, asset: &Asset) -> bool
    ensures { IsTrue result
        → slice_get (listing rows.now) index ≡ Some (listed_of (unit_of asset.now)) }
{
    match rows.get(index) {
        None => false,
        Some(row) => is_asset(asset, &row.id, row.kind),
    }
}

/// The row of an asset, which is looked up.
#[inline(never)]
fn looked_up(ledger: &Ledger, asset: &Asset) -> Option<usize>
    ensures { result ≡ number_in ledger.now.listed (listed_of (unit_of asset.now)) }
{
    match ledger.number_of(&asset.id, asset.kind()) {
        None => None,
        Some(row) => Some(row as usize),
    }
}

impl Hints {
    /// No asset was found yet.
    pub(crate) fn none() -> Hints {
        Hints { rows: [0; 64] }
    }

    /// The hint of this number.
    fn hint(&self, slot: usize) -> usize
        requires { slot < 64 }
    {
        self.rows[slot]
    }

    /// The row of an asset in a chain's list; None where it isn't listed. It is looked up only where it isn't in the row where an asset whose id ends
    /// alike was found last.
    pub(crate) fn row_of(
        &mut self,
        rows: &[AssetRow],
        ledger: &Ledger,
        asset: &Asset,
    ) -> Option<usize>
        requires listed { ledger.now.listed ≡ listing rows.now }
        requires once { IsDistinct (eq_by_cmp listed_cmp) ledger.now.listed }
        ensures { result ≡ number_in ledger.now.listed (listed_of (unit_of asset.now)) }
    {
        let slot = slot_of(&asset.id);
        let hint = self.hint(slot);
        if is_at(rows, hint, asset) {
            return Some(hint);
        }
        let found = looked_up(ledger, asset);
        if let Some(row) = found {
            self.rows[slot] = row;
        }
        found
    }
}
