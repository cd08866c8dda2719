//! What the fee account gets of paid fees, and what would pass 2^128-1 there.
ghost use Rattle.std.specs.Prelude.{◌≡◌, ◌++◌, [], ◌∷◌, map, None, IsTrue, IfOk, OnOk};
ghost use Rattle.amounts.specs.Amounts.{amount, empty, rows};
ghost use Rattle.asset_lists.specs.declared.units.Fun.TheVariants.{Fungible};
ghost use Rattle.asset_lists.specs.Listed.{listed_of, lists};
ghost use Rattle.asset_bundles.specs.declared.book.Cause.{Cause};
ghost use Rattle.asset_bundles.specs.Bundles.{bundle_of, rows_of, assets_of_rows};
ghost use Rattle.asset_bundles.specs.Totals.{total_value, wide_value};
ghost use Rattle.trust_tables.specs.Trust.{listing};
ghost use Rattle.ledgers.specs.Ledgers.{barred};
ghost use Rattle.weight_trader.specs.Purchases.{paid_goods};
ghost use Rattle.chain_state.specs.Fees.{some_row};
ghost use Rattle.exec_base.specs.Host.{fees_within, fees_above, burned_line};
ghost use Rattle.chain_state.specs.PartOf.{part_of};
ghost use Rattle.chain_state.specs.Settling.{are_units_listed, asset_of_amount, some_coins};

use crate::ChainState;
use crate::fees::fee_excess::FeeExcess;
use crate::fees::wide::parted;
use asset_bundles::{Cause, Total, WideSum, make_room};
use asset_lists::{Asset, AssetId, Fun, Kind, push_asset};
use exec_base::Event;
use plain_lists::Boxed;
use std::alloc::AllocError;

/// Adds so much of a fungible asset to the list, if it isn't 0.
fn push_coins(list: &mut Vec<Asset>, id: &AssetId, amount: u128) -> Result<(), AllocError>
    ensures { OnOk result (list.new.items ≡ list.old.items ++ some_coins id.now amount) }
{
    if amount == 0 {
        return Ok(());
    }
    make_room(list)?;
    push_asset(list, id, Fun::Fungible(amount));
    Ok(())
}

/// Adds so much of a fungible asset to the list, if it isn't 0.
fn push_above(list: &mut Vec<FeeExcess>, id: &AssetId, amount: WideSum) -> Result<(), AllocError>
    ensures { OnOk result (list.new.items ≡ list.old.items
        ++ some_row (id.now, None) (wide_value amount)) }
{
    if amount.is_zero() {
        return Ok(());
    }
    list.push(FeeExcess::new(id, amount))?;
    Ok(())
}

impl ChainState {
    /// What is paid to the trader in an asset.
    #[tactic(auto, using(crate::proofs::Settled::no_place))]
    fn paid_in(&self, id: &AssetId) -> u128
        ensures { result ≡ amount (paid_goods self.now.trader) (id.now, None) }
    {
        match id {
            AssetId::Concrete(place) => self.trader.paid(place),
            AssetId::Abstract(_) => 0,
        }
    }

    /// What the fee account gets of an asset in which so much was paid and so much is kept, which it takes in, and what would pass 2^128-1
    /// there. Where nothing came in, what the account has isn't looked up.
    fn share(&self, id: &AssetId, paid: u128, kept: Total) -> (u128, WideSum)
        requires paid { paid ≡ amount (paid_goods (part_of self.now).lines) (id.now, None) }
        requires kept { total_value kept ≡ amount (part_of self.now).fees (id.now, None) }
        ensures within { result.0 ≡ amount (fees_within (part_of self.now)) (id.now, None) }
        ensures above { wide_value result.1
            ≡ amount (fees_above (part_of self.now)) (id.now, None) }
        ensures free { barred (part_of self.now).held (part_of self.now).fee_account
            (some_coins id.now result.0) ≡ None }
    {
        if paid == 0 && kept.high == 0 && kept.low == 0 {
            return (0, WideSum::ZERO);
        }
        let held = self.ledger.amount(&self.settings.fee_account, id);
        parted(held, paid, kept)
    }

    /// As `shares`, where this much of one asset was paid, and no more was paid or kept.
    fn lone_share(
        &self,
        id: &AssetId,
        paid: u128,
    ) -> Result<(Vec<Asset>, Vec<FeeExcess>), AllocError>
        requires paid { bundle_of (record { id = id.now; fun = Fungible paid } ∷ [])
            ≡ paid_goods (part_of self.now).lines }
        requires clear { (part_of self.now).fees ≡ empty }
        ensures within { IfOk result (λ shares. rows_of shares.0.items
            ≡ rows (fees_within (part_of self.now))) }
        ensures free { IfOk result
            (λ shares. barred (part_of self.now).held (part_of self.now).fee_account shares.0.items
            ≡ None) }
        ensures above { IfOk result (λ shares. shares.1.items
            ≡ rows (fees_above (part_of self.now))) }
    {
        let alloc = *self.events.allocator();
        let mut within = Vec::new(alloc);
        let mut above = Vec::new(alloc);
        let (fits, rest) = self.share(id, paid, Total::ZERO);
        push_coins(&mut within, id, fits)?;
        push_above(&mut above, id, rest)?;
        Ok((within, above))
    }

    /// As `shares`, row by row of the fees.
    fn row_shares(&self) -> Result<(Vec<Asset>, Vec<FeeExcess>), AllocError>
        ensures within { IfOk result (λ shares. rows_of shares.0.items
            ≡ rows (fees_within (part_of self.now))) }
        ensures free { IfOk result
            (λ shares. barred (part_of self.now).held (part_of self.now).fee_account shares.0.items
            ≡ None) }
        ensures above { IfOk result (λ shares. shares.1.items
            ≡ rows (fees_above (part_of self.now))) }
    {
        let alloc = *self.events.allocator();
        let mut within = Vec::new(alloc);
        let mut above = Vec::new(alloc);
        for row in self.fees.rows() {
            let id = row.id();
            let paid = self.paid_in(&id);
            let kept = row.sum();
            let (fits, rest) = self.share(&id, paid, kept);
            push_coins(&mut within, &id, fits)?;
            push_above(&mut above, &id, rest)?;
        }
        Ok((within, above))
    }

    /// What the fee account gets, and what would pass 2^128-1 there, in holding order. Where one asset was paid in and nothing is kept, the
    /// rows of the fees aren't looked at.
    pub(crate) fn shares(&self) -> Result<(Vec<Asset>, Vec<FeeExcess>), AllocError>
        ensures within { IfOk result (λ shares. rows_of shares.0.items
            ≡ rows (fees_within (part_of self.now))) }
        ensures free { IfOk result
            (λ shares. barred (part_of self.now).held (part_of self.now).fee_account shares.0.items
            ≡ None) }
        ensures above { IfOk result (λ shares. shares.1.items
            ≡ rows (fees_above (part_of self.now))) }
    {
        if self.fees.is_clear() {
            if !self.trader.is_paid() {
                let alloc = *self.events.allocator();
                return Ok((Vec::new(alloc), Vec::new(alloc)));
            }
            if let Some((id, paid)) = self.trader.lone_payment() {
                return self.lone_share(id, paid);
            }
        }
        self.row_shares()
    }

    /// The line of so much of a listed asset that is booked as saturated.
    fn above_line(&self, above: &FeeExcess) -> Result<Event, AllocError>
        requires listed { IsTrue (lists (listing self.now.settings.rows) (listed_of above.now.0)) }
        ensures { IfOk result (λ event. event ≡ burned_line (part_of self.now)
            (λ unit. Cause.Saturated) (asset_of_amount above.now)) }
    {
        let asset = Asset {
            id: above.id().copy(),
            fun: Fun::Fungible(0),
        };
        let path = Boxed::new(*self.events.allocator(), self.path(&asset))?;
        Ok(Event::Burned {
            kind: Kind::Fungible,
            path,
            amount: above.total(),
            cause: Cause::Saturated,
        })
    }

    /// The lines of what is booked as saturated.
    pub(crate) fn above_lines(&self, above: &[FeeExcess]) -> Result<Vec<Event>, AllocError>
        requires listed { IsTrue (are_units_listed (listing self.now.settings.rows) above.now) }
        ensures { IfOk result (λ lines. lines.items
            ≡ map (burned_line (part_of self.now) (λ unit. Cause.Saturated))
            (assets_of_rows above.now)) }
    {
        let mut lines = Vec::new(*self.events.allocator());
        for one in above {
            lines.push(self.above_line(one)?)?;
        }
        Ok(lines)
    }
}
