//! What is bought at one rate.
ghost use Rattle.std.specs.Prelude.{◌≡◌, ◌≤◌, ◌<◌, ◌&&◌, [], ◌∷◌, ◌++◌, min, vec_len, vec_capacity};
ghost use Rattle.amounts.specs.Amounts.{amount};
ghost use Rattle.asset_lists.specs.declared.units.AssetId.TheVariants.{Concrete};
ghost use Rattle.weight_trader.specs.Prices.{price};
ghost use Rattle.weight_trader.specs.Purchases.{new_line, coin_of, is_in, is_covered, with_purchase, excess, some_amount, unspent_at};
ghost use Rattle.weight_trader.specs.Refunds.{refund_at, is_refunded, without_refund};
ghost use Rattle.weight_trader.specs.Closing.{coins, is_paid};

use crate::rate::{Rate, price};
use asset_bundles::AssetBundle;
use asset_lists::{Asset, AssetId, Fun, push_place};
use locations::Location;
use operands::Weight;
use std::marker::Model;

/// What is bought at one rate, and what is paid for it.
#[derive(Drop)]
pub(crate) struct Purchases {
    rate: Rate,
    /// What the rate's asset is called, made once.
    id: AssetId,
    bought: Weight,
    paid: u128,
}

impl Model for Purchases {
    ghost use Rattle.std.specs.Prelude.{◌≡◌};
    ghost use Rattle.asset_lists.specs.declared.units.AssetId.TheVariants.{Concrete};
    ghost use Rattle.weight_trader.specs.Purchases.{Line};

    ghost Value = { Line };

    ghost view = { λ p. record { rate = p.rate; bought = p.bought; paid = p.paid } };

    ghost invariant = { λ p. p.id ≡ Concrete p.rate.asset };
}

impl Purchases {
    /// Nothing bought at this rate.
    pub(crate) fn new(rate: &Rate) -> Purchases
        ensures { result ≡ new_line rate.now }
    {
        Purchases {
            rate: rate.copy(),
            id: AssetId::Concrete(rate.asset.copy()),
            bought: Weight::ZERO,
            paid: 0,
        }
    }

    /// The asset that is paid with.
    pub(crate) fn asset(&self) -> Location
        ensures { result ≡ self.now.rate.asset }
    {
        self.rate.asset.copy()
    }

    /// What the asset is called that is paid with.
    pub(crate) fn id(&self) -> &AssetId
        ensures { result.now ≡ Concrete self.now.rate.asset }
    {
        &self.id
    }

    /// Whether something is still paid.
    pub(crate) fn is_paid(&self) -> bool
        ensures { result ≡ is_paid self.now }
    {
        self.paid > 0
    }

    /// What is still paid, in the asset's smallest unit.
    pub(crate) fn paid(&self) -> u128
        ensures { result ≡ self.now.paid }
    {
        self.paid
    }

    /// Whether this asset is paid with.
    pub(crate) fn is_in(&self, asset: &Location) -> bool
        ensures { result ≡ is_in asset.now self.now.rate }
    {
        self.rate.asset == *asset
    }

    /// Whether something is still paid in this asset.
    pub(crate) fn is_paid_in(&self, asset: &Location) -> bool
        ensures { result ≡ (is_paid self.now && is_in asset.now self.now.rate) }
    {
        self.is_paid() && self.is_in(asset)
    }

    /// So much of the asset that is paid with.
    pub(crate) fn coins(&self, amount: u128) -> Asset
        ensures { result ≡ coins self.now.rate amount }
    {
        Asset {
            id: self.id.copy(),
            fun: Fun::Fungible(amount),
        }
    }

    /// Puts so much of the asset that is paid with at the end of a list that has room for it.
    pub(crate) fn push_coins(&self, list: &mut Vec<Asset>, amount: u128)
        requires room { vec_len list.old < vec_capacity list.old }
        ensures { list.new.items ≡ list.old.items ++ coins self.now.rate amount ∷ [] }
    {
        push_place(list, &self.rate.asset, Fun::Fungible(amount));
    }

    /// Whether the payment has the price of the weight.
    pub(crate) fn is_covered(&self, weight: Weight, payment: &AssetBundle) -> bool
        ensures { result ≡ is_covered weight payment.now self.now }
    {
        price(&self.rate, weight) <= payment.amount(&self.id)
    }

    /// What would pass 2^128-1 of what is paid, were the weight bought.
    pub(crate) fn excess(&self, weight: Weight) -> u128
        ensures { result ≡ excess weight self.now }
    {
        let room = u128::MAX - self.paid;
        price(&self.rate, weight).saturating_sub(room)
    }

    /// The asset and what would pass 2^128-1 of it, were the weight bought; none where nothing would.
    #[tactic(auto, using(crate::proofs::Charging::amount_none, crate::proofs::Charging::amount_some))]
    pub(crate) fn excess_of(&self, weight: Weight) -> Option<(Location, u128)>
        ensures { result ≡ some_amount self.now.rate.asset (excess weight self.now) }
    {
        let above = self.excess(weight);
        if above == 0 {
            return None;
        }
        Some((self.asset(), above))
    }

    /// Takes the price of the weight, which the payment has, and records it. The answer is what would have passed 2^128-1 of what is
    /// paid.
    pub(crate) fn sell(&mut self, weight: Weight, payment: &mut AssetBundle) -> u128
        requires { price self.old.rate weight ≤ amount payment.old (coin_of self.old.rate) }
        ensures line { self.new ≡ with_purchase weight self.old }
        ensures payment { payment.new ≡ unspent_at weight payment.old self.old }
        ensures excess { result ≡ excess weight self.old }
    {
        let above = self.excess(weight);
        let cost = price(&self.rate, weight);
        if cost == 0 {
            return above;
        }
        payment.spend_amount(&self.id, cost);
        self.bought.ref_time = self.bought.ref_time.saturating_add(weight.ref_time);
        self.bought.proof_size = self.bought.proof_size.saturating_add(weight.proof_size);
        self.paid = self.paid.saturating_add(cost);
        above
    }

    /// The part of the weight that is bought.
    fn refundable(&self, weight: Weight) -> Weight
        ensures ref_time { result.ref_time ≡ min weight.ref_time self.now.bought.ref_time }
        ensures proof_size { result.proof_size ≡ min weight.proof_size self.now.bought.proof_size }
    {
        Weight {
            ref_time: weight.ref_time.min(self.bought.ref_time),
            proof_size: weight.proof_size.min(self.bought.proof_size),
        }
    }

    /// What is given back for the weight, in the asset's smallest unit.
    pub(crate) fn refund_amount(&self, weight: Weight) -> u128
        ensures { result ≡ refund_at weight self.now }
    {
        price(&self.rate, self.refundable(weight)).min(self.paid)
    }

    /// Whether something is given back for the weight.
    pub(crate) fn is_refunded(&self, weight: Weight) -> bool
        ensures { result ≡ is_refunded weight self.now }
    {
        self.refund_amount(weight) > 0
    }

    /// Records that the weight is given back.
    pub(crate) fn give_back(&mut self, weight: Weight)
        ensures { self.new ≡ without_refund weight self.old }
    {
        let amount = self.refund_amount(weight);
        let part = self.refundable(weight);
        self.bought.ref_time -= part.ref_time;
        self.bought.proof_size -= part.proof_size;
        self.paid -= amount;
    }

    /// Forgets all that is bought and paid.
    pub(crate) fn clear(&mut self)
        ensures { self.new ≡ new_line self.old.rate }
    {
        self.bought = Weight::ZERO;
        self.paid = 0;
    }
}
