//! Bundles that are joined.
ghost use Rattle.std.specs.Prelude.{◌≡◌, ◌++◌, [], IsTrue, IfOk, IfErr, OnOk, OnErr};
ghost use Rattle.amounts.specs.Amounts.{merge};
ghost use Rattle.asset_lists.specs.Units.{unit_of, amount_of};
ghost use Rattle.asset_bundles.specs.Bundles.{bundle_of, held_assets, IsHolding};
ghost use Rattle.asset_bundles.specs.Joins.{most_of, Joined, Excess, IsWithinMost, IsListOf};
ghost use Rattle.asset_bundles.specs.Books.{Booked, AreListed, given_up};
ghost use Rattle.asset_bundles.specs.Portions.{changed, grown_by, above_by, new_to, AreWithinMost};

use crate::burns::book_excess;
use crate::items::{amounts_fit, held};
use crate::portions::{push_amount, set_amount};
use crate::{AssetBundle, BurnBook};
use asset_lists::{Asset, Fun};
use std::alloc::{AllocError, Global};

/// The most that a bundle holds of this asset: 2^128-1 of an amount, and 1 of an instance.
fn most_of(item: &Asset) -> u128
    ensures { result ≡ most_of (unit_of item.now).1 }
{
    match item.fun {
        Fun::Fungible(_) => u128::MAX,
        Fun::NonFungible(_) => 1,
    }
}

/// What is kept of an asset with what there is more of it.
fn grown_amount(item: &Asset, more: &[Asset]) -> u128
    ensures { result ≡ grown_by more.now (unit_of item.now) (amount_of item.now) }
{
    let sum = item.amount().saturating_add(held(more, item));
    sum.min(most_of(item))
}

/// What is above the most of an asset with what there is more of it.
fn amount_above(item: &Asset, more: &[Asset]) -> u128
    ensures { result ≡ above_by more.now (unit_of item.now) (amount_of item.now) }
{
    let room = most_of(item).saturating_sub(held(more, item));
    item.amount().saturating_sub(room)
}

/// What there is of an asset that isn't among the items, and else nothing.
fn new_amount(item: &Asset, items: &[Asset]) -> u128
    ensures { result ≡ new_to items.now (unit_of item.now) (amount_of item.now) }
{
    let amount = item.amount();
    if held(items, item) == 0 { amount } else { 0 }
}

/// The items, each with what there is more of it, as far as that is kept.
fn grown(alloc: Global, items: &[Asset], more: &[Asset]) -> Result<Vec<Asset>, AllocError>
    ensures { IfOk result (λ grown. grown.items ≡ changed (grown_by more.now) items.now) }
{
    let mut grown = Vec::new(alloc);
    for item in items {
        push_amount(&mut grown, item, grown_amount(item, more))?;
    }
    Ok(grown)
}

/// Puts what isn't among the items at the end.
fn push_new(list: &mut Vec<Asset>, items: &[Asset], more: &[Asset]) -> Result<(), AllocError>
    ensures { OnOk result (list.new.items ≡ list.old.items ++ changed (new_to items.now) more.now) }
{
    for item in more {
        push_amount(list, item, new_amount(item, items))?;
    }
    Ok(())
}

/// Whether each of the others is among the items.
fn are_held(items: &[Asset], more: &[Asset]) -> bool
    ensures { IsTrue result → changed (new_to items.now) more.now ≡ [] }
{
    for item in more {
        if new_amount(item, items) != 0 {
            return false;
        }
    }
    true
}

/// Whether nothing is given up of the items where there is more of them.
fn are_kept(items: &[Asset], more: &[Asset]) -> bool
    ensures { IsTrue result → changed (above_by more.now) items.now ≡ [] }
{
    for item in items {
        if amount_above(item, more) != 0 {
            return false;
        }
    }
    true
}

/// Makes each of the items what there is with what there is more of it, as far as that is kept.
fn grow(items: &mut Vec<Asset>, more: &[Asset])
    requires { IsHolding items.old.items }
    ensures { items.new.items ≡ changed (grown_by more.now) items.old.items }
{
    for item in items.iter_mut() {
        let amount = grown_amount(item, more);
        set_amount(item, amount);
    }
}

/// Whether all of the others are among the items, and nothing is given up of both: then each of the items grows.
fn grows(items: &[Asset], more: &[Asset]) -> bool
    requires items { IsHolding items.now }
    requires more { IsHolding more.now }
    requires within { AreWithinMost more.now }
    ensures kept { IsTrue result → IsListOf (Joined (bundle_of items.now) (bundle_of more.now))
        (changed (grown_by more.now) items.now) }
    ensures above { IsTrue result
        → IsListOf (Excess (bundle_of items.now) (bundle_of more.now)) [] }
{
    are_held(items, more) && are_kept(items, more)
}

/// Both lists as one in holding order, as far as each sum is kept.
fn together(alloc: Global, items: &[Asset], more: &[Asset]) -> Result<Vec<Asset>, AllocError>
    requires items { IsHolding items.now }
    requires more { IsHolding more.now }
    requires within { AreWithinMost more.now }
    ensures { IfOk result (λ all. IsListOf (Joined (bundle_of items.now) (bundle_of more.now))
        all.items) }
{
    let mut all = grown(alloc, items, more)?;
    push_new(&mut all, items, more)?;
    all.sort_unstable();
    Ok(all)
}

/// What is given up of the items where there is more of them.
fn above(alloc: Global, items: &[Asset], more: &[Asset]) -> Result<Vec<Asset>, AllocError>
    requires items { IsHolding items.now }
    requires more { IsHolding more.now }
    requires within { AreWithinMost more.now }
    ensures { IfOk result (λ above. IsListOf (Excess (bundle_of items.now) (bundle_of more.now))
        above.items) }
{
    let mut above = Vec::new(alloc);
    for item in items {
        push_amount(&mut above, item, amount_above(item, more))?;
    }
    Ok(above)
}

/// What is kept of both lists, and what is given up, each in holding order.
fn joined(
    alloc: Global,
    items: &[Asset],
    more: &[Asset],
) -> Result<(Vec<Asset>, Vec<Asset>), AllocError>
    requires items { IsHolding items.now }
    requires more { IsHolding more.now }
    requires within { AreWithinMost more.now }
    ensures kept { IfOk result
        (λ parts. IsListOf (Joined (bundle_of items.now) (bundle_of more.now)) parts.0.items) }
    ensures above { IfOk result
        (λ parts. IsListOf (Excess (bundle_of items.now) (bundle_of more.now)) parts.1.items) }
{
    let kept = together(alloc, items, more)?;
    let above = above(alloc, items, more)?;
    Ok((kept, above))
}

impl AssetBundle {
    /// What a join with the other bundle would give up, in holding order.
    pub fn excess(&self, other: &AssetBundle) -> Result<Vec<Asset>, AllocError>
        ensures listed { IfOk result (λ assets. assets.items
            ≡ held_assets (Excess self.now other.now)) }
        ensures bundle { IfOk result (λ assets. bundle_of assets.items
            ≡ Excess self.now other.now) }
    {
        // For the prover alone: no amount is above the most.
        amounts_fit(other.items.as_slice());
        let alloc = *self.items.allocator();
        let assets = above(alloc, self.items.as_slice(), other.items.as_slice())?;
        Ok(assets)
    }

    /// Joins the other bundle into this one. A sum past 2^128-1 saturates, and the rest is booked as
    /// `Saturated`; an instance that both hold is kept once, and booked as `Merged`. The book lists each
    /// asset that is given up. An `Err` is out of memory: it hands the other bundle back.
    pub fn join(&mut self, other: AssetBundle, book: &mut BurnBook) -> Result<(), AssetBundle>
        requires { AreListed book.old.listed (Excess self.old other) }
        ensures joined { OnOk result (self.new ≡ Joined self.old other) }
        ensures booked { OnOk result (book.new ≡ Booked book.old (given_up self.old other)) }
        ensures handed_back { IfErr result (λ back. back ≡ other) }
        ensures unchanged { OnErr result (self.new ≡ self.old) }
        ensures book_unchanged { OnErr result (book.new ≡ book.old) }
    {
        // For the prover alone: no amount is above the most.
        amounts_fit(other.items.as_slice());
        if self.items.is_empty() {
            // The other's list is taken over as it is.
            book_excess(book, &[]);
            let AssetBundle { items } = other;
            self.items = items;
            return Ok(());
        }
        if grows(self.items.as_slice(), other.items.as_slice()) {
            // In place.
            grow(&mut self.items, other.items.as_slice());
            book_excess(book, &[]);
            other.melt();
            return Ok(());
        }
        let alloc = *self.items.allocator();
        match joined(alloc, self.items.as_slice(), other.items.as_slice()) {
            Ok((kept, above)) => {
                book_excess(book, above.as_slice());
                self.items = kept;
                other.melt();
                Ok(())
            }
            Err(_) => Err(other),
        }
    }

    /// Puts goods back that were taken from this bundle, or any that fit beside what it holds: nothing is
    /// given up, so no book is needed. An `Err` is out of memory: it hands the goods back.
    pub fn put_back(&mut self, goods: AssetBundle) -> Result<(), AssetBundle>
        requires { IsWithinMost (merge self.old goods) }
        ensures whole { OnOk result (self.new ≡ merge self.old goods) }
        ensures handed_back { IfErr result (λ back. back ≡ goods) }
        ensures unchanged { OnErr result (self.new ≡ self.old) }
    {
        // For the prover alone: no amount is above the most.
        amounts_fit(goods.items.as_slice());
        let alloc = *self.items.allocator();
        match together(alloc, self.items.as_slice(), goods.items.as_slice()) {
            Ok(all) => {
                self.items = all;
                goods.melt();
                Ok(())
            }
            Err(_) => Err(goods),
        }
    }
}
