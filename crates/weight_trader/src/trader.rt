//! Weight that is bought with what a chain's rates name, and given back.
ghost use Rattle.std.specs.Prelude.{◌≡◌, ◌≢◌, [], ◌∷◌, length, None, IsTrue, IsFalse, IfOk, IfErr, OnOk, OnErr, IfSome, MatchOption};
ghost use Rattle.std.specs.List.{list_any, position};
ghost use Rattle.amounts.specs.Amounts.{amount, single};
ghost use Rattle.asset_lists.specs.declared.units.AssetId.TheVariants.{Concrete};
ghost use Rattle.asset_lists.specs.declared.units.Fun.TheVariants.{Fungible};
ghost use Rattle.asset_lists.specs.declared.units.Kind.{Kind};
ghost use Rattle.asset_lists.specs.Listed.{lists};
ghost use Rattle.asset_bundles.specs.Bundles.{bundle_of};
ghost use Rattle.weight_trader.specs.Purchases.{new_lines, coin_of, NameEachOnce, AreApart, AreRatesListed, paid_goods, is_covered, excess_of, AreWithinEnd, IsTooExpensive, with_saturated, IsPurchase};
ghost use Rattle.weight_trader.specs.Refunds.{refund_at, is_refunded, refund_of, goods_of, Refunded, Closed};
ghost use Rattle.weight_trader.specs.Closing.{coins, is_paid, paid_assets};

use crate::Rate;
use crate::purchases::Purchases;
use asset_bundles::{AssetBundle, BurnBook, Cause, make_room};
use asset_lists::{Asset, AssetId, Kind};
use locations::Location;
use operands::Weight;
use std::alloc::{AllocError, Global};
use std::marker::Model;
use thiserror::Error;

/// No rate's price is covered by the payment.
#[derive(Clone, Copy, Debug, PartialEq, Eq, Error)]
#[error("a payment that covers no price")]
pub struct TooExpensive;

/// What is bought and paid at each rate of a chain, in listed order. Contracts see it as the list of its lines.
#[derive(Drop)]
pub struct Trader {
    lines: Vec<Purchases>,
}

impl Model for Trader {
    ghost use Rattle.std.specs.Prelude.{List};
    ghost use Rattle.weight_trader.specs.Purchases.{Line, AreApart};

    ghost Value = { List Line };

    ghost view = { λ t. t.lines.items };

    ghost invariant = { λ t. AreApart t.lines.items };
}

/// Where the first rate is whose price the payment covers.
fn first_covered(lines: &[Purchases], weight: Weight, payment: &AssetBundle) -> Option<usize>
    ensures { result ≡ position (is_covered weight payment.now) lines.now }
{
    lines
        .iter()
        .position(|line| line.is_covered(weight, payment))
}

/// Where the first line is that gives something back for the weight.
fn first_refunded(lines: &[Purchases], weight: Weight) -> Option<usize>
    ensures { result ≡ position (is_refunded weight) lines.now }
{
    lines.iter().position(|line| line.is_refunded(weight))
}

/// What is paid at each line at which something is.
fn paid_assets(alloc: Global, lines: &[Purchases]) -> Result<Vec<Asset>, AllocError>
    ensures { IfOk result (λ assets. assets.items ≡ paid_assets lines.now) }
{
    let mut assets = Vec::new(alloc);
    for line in lines {
        if line.is_paid() {
            make_room(&mut assets)?;
            line.push_coins(&mut assets, line.paid());
        }
    }
    Ok(assets)
}

/// Whether something is paid at one of these lines.
fn is_any_paid(lines: &[Purchases]) -> bool
    ensures { result ≡ list_any is_paid lines.now }
{
    lines.iter().any(|line| line.is_paid())
}

/// Where the first line is at which something is paid.
fn first_paid(lines: &[Purchases]) -> Option<usize>
    ensures { result ≡ position is_paid lines.now }
{
    lines.iter().position(|line| line.is_paid())
}

/// The line at which something is paid, where there is just one.
fn lone_paid(lines: &[Purchases]) -> Option<&Purchases>
    ensures { MatchOption result
        (length (paid_assets lines.now) ≢ 1)
        (λ line. paid_assets lines.now ≡ coins line.now.rate line.now.paid ∷ []) }
{
    let Some(first) = first_paid(lines) else {
        return None;
    };
    if is_any_paid(&lines[first + 1..]) {
        return None;
    }
    Some(&lines[first])
}

/// Makes what is paid at all these lines.
fn minted(alloc: Global, lines: &[Purchases]) -> Result<AssetBundle, AllocError>
    requires { AreApart lines.now }
    ensures { IfOk result (λ goods. goods ≡ paid_goods lines.now) }
{
    let assets = paid_assets(alloc, lines)?;
    Ok(AssetBundle::of_list(assets))
}

/// Makes what a line gives back for the weight.
fn minted_refund(alloc: Global, line: &Purchases, weight: Weight) -> Result<AssetBundle, AllocError>
    requires { IsTrue (is_refunded weight line.now) }
    ensures { IfOk result (λ goods. goods
        ≡ single (coin_of line.now.rate) (refund_at weight line.now)) }
{
    let coins = line.coins(line.refund_amount(weight));
    let goods = AssetBundle::mint(alloc, &[coins])?;
    Ok(goods)
}

/// A line for each rate, at which nothing is bought.
fn new_lines(alloc: Global, rates: &[Rate]) -> Result<Vec<Purchases>, AllocError>
    ensures { IfOk result (λ lines. lines.items ≡ new_lines rates.now) }
{
    let mut lines = Vec::new(alloc);
    for rate in rates {
        lines.push(Purchases::new(rate))?;
    }
    Ok(lines)
}

/// Forgets all that is bought and paid.
fn clear_all(lines: &mut [Purchases])
    ensures { lines.new ≡ Closed lines.old }
{
    for line in lines.iter_mut() {
        line.clear();
    }
}

/// Books so much of an asset that would have passed 2^128-1, and nothing where it is 0.
fn book_excess(book: &mut BurnBook, id: &AssetId, excess: u128)
    requires { IsTrue (lists book.old.listed (id.now, Kind.Fungible)) }
    ensures { book.new ≡ with_saturated (id.now, Kind.Fungible) excess book.old }
{
    if excess > 0 {
        book.add(id, Kind::Fungible, Cause::Saturated, excess);
    }
}

impl Trader {
    /// A trader with these rates, at which nothing is bought. No two rates name the same asset.
    pub fn new(alloc: Global, rates: &[Rate]) -> Result<Trader, AllocError>
        requires { NameEachOnce rates.now }
        ensures lines { IfOk result (λ trader. trader ≡ new_lines rates.now) }
        ensures ends { IfOk result (λ trader. AreWithinEnd trader) }
    {
        let lines = new_lines(alloc, rates)?;
        Ok(Trader { lines })
    }

    /// Takes the price of the weight at the first rate that the payment covers, records it, and books what would have passed 2^128-1 of
    /// what is paid. False where each price passes the payment; then nothing changes.
    fn charge(&mut self, weight: Weight, payment: &mut AssetBundle, book: &mut BurnBook) -> bool
        requires { AreRatesListed book.old.listed self.old }
        ensures bought { IsTrue result → IsPurchase weight payment.old self.old book.old payment.new
            self.new book.new }
        ensures too_expensive { IsFalse result → IsTooExpensive weight payment.old self.old }
        ensures payment { IsFalse result → payment.new ≡ payment.old }
        ensures unchanged { IsFalse result → self.new ≡ self.old }
        ensures book { IsFalse result → book.new ≡ book.old }
    {
        let Some(place) = first_covered(self.lines.as_slice(), weight, payment) else {
            return false;
        };
        let line = &mut self.lines[place];
        let above = line.sell(weight, payment);
        book_excess(book, line.id(), above);
        true
    }

    /// Buys the weight at the first rate, in listed order, whose price the payment covers. What is left of the payment is handed back, and
    /// what would have passed 2^128-1 of what is paid is booked as saturated. A price of 0 takes and records nothing. The book lists each
    /// rate's asset. No memory is taken. An `Err` hands the payment back whole and changes nothing: each price passes what it has.
    pub fn buy(
        &mut self,
        weight: Weight,
        mut payment: AssetBundle,
        book: &mut BurnBook,
    ) -> Result<AssetBundle, (AssetBundle, TooExpensive)>
        requires { AreRatesListed book.old.listed self.old }
        ensures bought { IfOk result (λ left. IsPurchase weight payment self.old book.old left
            self.new book.new) }
        ensures too_expensive { OnErr result (IsTooExpensive weight payment self.old) }
        ensures handed_back { IfErr result (λ refusal. refusal.0 ≡ payment) }
        ensures unchanged { OnErr result (self.new ≡ self.old) }
        ensures book_unchanged { OnErr result (book.new ≡ book.old) }
    {
        if !self.charge(weight, &mut payment, book) {
            return Err((payment, TooExpensive));
        }
        Ok(payment)
    }

    /// What `buy` would book as saturated: the asset, and the amount in its smallest unit. None where it would book nothing.
    pub fn excess_of(&self, weight: Weight, payment: &AssetBundle) -> Option<(Location, u128)>
        ensures { result ≡ excess_of weight payment.now self.now }
    {
        let Some(place) = first_covered(self.lines.as_slice(), weight, payment) else {
            return None;
        };
        self.lines[place].excess_of(weight)
    }

    /// What would be given back for the weight: the asset, and the amount in its smallest unit. None where each line gives nothing.
    pub fn refund_of(&self, weight: Weight) -> Option<(Location, u128)>
        ensures { result ≡ refund_of weight self.now }
    {
        let line = self.lines.iter().find(|line| line.is_refunded(weight))?;
        Some((line.asset(), line.refund_amount(weight)))
    }

    /// Gives back what `refund_of` says, and nothing where it says none. An `Err` is out of memory and changes nothing.
    pub fn refund(&mut self, weight: Weight) -> Result<AssetBundle, AllocError>
        ensures goods { IfOk result (λ goods. goods ≡ goods_of (refund_of weight self.old)) }
        ensures lines { OnOk result (self.new ≡ Refunded weight self.old) }
        ensures err { OnErr result (self.new ≡ self.old) }
    {
        let alloc = *self.lines.allocator();
        let Some(place) = first_refunded(self.lines.as_slice(), weight) else {
            return Ok(AssetBundle::empty(alloc));
        };
        let goods = minted_refund(alloc, &self.lines[place], weight)?;
        self.lines[place].give_back(weight);
        Ok(goods)
    }

    /// Hands out all that is still paid, and forgets what was bought. An `Err` is out of memory and changes nothing.
    pub fn close(&mut self) -> Result<AssetBundle, AllocError>
        ensures goods { IfOk result (λ goods. goods ≡ paid_goods self.old) }
        ensures lines { OnOk result (self.new ≡ Closed self.old) }
        ensures err { OnErr result (self.new ≡ self.old) }
    {
        let alloc = *self.lines.allocator();
        let goods = minted(alloc, self.lines.as_slice())?;
        clear_all(self.lines.as_mut_slice());
        Ok(goods)
    }

    /// Forgets what was bought and all that is still paid. It takes no memory.
    pub fn forget(&mut self)
        ensures { self.new ≡ Closed self.old }
    {
        clear_all(self.lines.as_mut_slice());
    }

    /// Whether something is still paid.
    pub fn is_paid(&self) -> bool
        ensures value { result ≡ list_any is_paid self.now }
        ensures none { IsFalse result → bundle_of [] ≡ paid_goods self.now }
    {
        is_any_paid(self.lines.as_slice())
    }

    /// The asset in which something is still paid, and how much, where there is just one.
    pub fn lone_payment(&self) -> Option<(&AssetId, u128)>
        ensures asset { MatchOption result
            (length (paid_assets self.now) ≢ 1)
            (λ one. paid_assets self.now
            ≡ record { id = one.0.now; fun = Fungible one.1 } ∷ []) }
        ensures goods { IfSome result
            (λ one. bundle_of (record { id = one.0.now; fun = Fungible one.1 } ∷ [])
            ≡ paid_goods self.now) }
    {
        let Some(line) = lone_paid(self.lines.as_slice()) else {
            return None;
        };
        Some((line.id(), line.paid()))
    }

    /// What is still paid in this asset, in its smallest unit; 0 where no rate names it.
    pub fn paid(&self, asset: &Location) -> u128
        ensures { result ≡ amount (paid_goods self.now) (Concrete asset.now, None) }
    {
        for line in self.lines.as_slice() {
            if line.is_paid_in(asset) {
                return line.paid();
            }
        }
        0
    }
}
