//! What is kept of the fees in one asset.
ghost use Rattle.std.specs.Prelude.{◌≡◌, ◌+◌, ◌-◌, min, None, IfOk};
ghost use Rattle.std.specs.Ordering.{eq_by_cmp};
ghost use Rattle.asset_lists.specs.Units.{unit_cmp};
ghost use Rattle.asset_bundles.specs.Totals.{total_value};
ghost use Rattle.asset_bundles.specs.Books.{most_burned};
ghost use Rattle.chain_state.specs.Fees.{no_fee, raised_fee, cleared};

use asset_bundles::{AssetBundle, Total};
use asset_lists::{AssetId, StoredId};
use std::alloc::{AllocError, Global};
use std::marker::Model;

/// How much of one fungible asset is kept, in its smallest unit. The sum saturates at 2^160-1. Contracts see it as the unit and the sum.
#[derive(Drop)]
pub struct FeeRow {
    id: StoredId,
    sum: Total,
}

impl Model for FeeRow {
    ghost use Rattle.std.specs.Prelude.{ℕ, None};
    ghost use Rattle.asset_lists.specs.Units.{Unit};
    ghost use Rattle.asset_bundles.specs.Totals.{total_value};

    ghost Value = { Unit × ℕ };

    ghost view = { λ row. ((row.id, None), total_value row.sum) };
}

/// A sum with so much more; it saturates at 2^160-1.
fn with_more(sum: Total, amount: u128) -> Total
    ensures { total_value result ≡ total_value sum + min amount (most_burned - total_value sum) }
{
    sum.plus(amount)
}

impl FeeRow {
    /// Nothing of the asset. An `Err` is out of memory.
    pub(crate) fn none_of(alloc: Global, id: &AssetId) -> Result<FeeRow, AllocError>
        ensures { IfOk result (λ row. row ≡ no_fee id.now) }
    {
        let id = StoredId::of(alloc, id)?;
        Ok(FeeRow {
            id,
            sum: Total::ZERO,
        })
    }

    /// The asset.
    pub fn id(&self) -> AssetId
        ensures { self.now.0 ≡ (result, None) }
    {
        self.id.to_id()
    }

    /// What is kept of it.
    pub fn sum(&self) -> Total
        ensures { total_value result ≡ self.now.1 }
    {
        self.sum
    }

    /// Whether it is of this asset.
    pub(crate) fn is_of(&self, id: &AssetId) -> bool
        ensures { result ≡ eq_by_cmp unit_cmp (id.now, None) self.now.0 }
    {
        self.id.is(id)
    }

    /// Adds what the goods have of the asset.
    pub(crate) fn raise(&mut self, goods: &AssetBundle)
        ensures { self.new ≡ raised_fee goods.now self.old }
    {
        self.sum = with_more(self.sum, goods.amount_by(&self.id));
    }

    /// Nothing of it is kept any longer.
    pub(crate) fn clear(&mut self)
        ensures { self.new ≡ cleared self.old }
    {
        self.sum = Total::ZERO;
    }
}
