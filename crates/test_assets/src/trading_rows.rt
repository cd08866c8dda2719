//! Weights, prices, purchases and refunds.
ghost use Rattle.std.specs.Prelude.{◌≡◌, ◌+◌, ◌<◌, ◌≤◌, ◌^◌, IfOk};
ghost use Rattle.xcm_program.specs.Measure.{deep_count};
ghost use Rattle.asset_lists.specs.Listed.{listed_of};
ghost use Rattle.weight_trader.specs.Purchases.{AreRatesListed, coin_of};
ghost use Rattle.test_assets.specs.Rests.{AreLight};

use asset_bundles::{AssetBundle, BurnBook, Cause, Total};
use asset_lists::{Asset, AssetId, Fun, Kind};
use locations::{Junctions, Location};
use operands::{LongBytes, OriginKind, Weight};
use std::alloc::{AllocError, Global};
use std::test::Fail;
use weight_trader::{
    NotComputable, Rate, TooExpensive, Trader, law_of_conserved_payments, price, weigh, weigh_rest,
};
use xcm_program::{Instruction, Program, WeightRule};

fn weight(ref_time: u64, proof_size: u64) -> Weight
    ensures { result ≡ record { ref_time = ref_time; proof_size = proof_size } }
{
    Weight {
        ref_time,
        proof_size,
    }
}

fn place(parents: u8) -> Location
    ensures { result.parents ≡ parents }
{
    let interior = Junctions::from_few(&[]);
    Location { parents, interior }
}

fn rate(parents: u8, per_second: u64, per_mb: u64) -> Rate
    ensures { result.asset.parents ≡ parents }
{
    Rate {
        asset: place(parents),
        per_second,
        per_mb,
    }
}

#[test]
fn prices_are_rounded_down_in_each_dimension(rt: HostRuntime) -> Result<(), Fail> {
    let second = 1_000_000_000_000;
    // the rate, the weight, and the price
    let cases = [
        (1, 0, second + second / 2, 0, 1),
        (1, 1, second - 1, 1_048_575, 0),
        (3, 5, 2 * second, 3 * 1_048_576 + 1, 21),
        (1, 0, u64::MAX, u64::MAX, 18_446_744),
    ];
    for (per_second, per_mb, ref_time, proof_size, wanted) in cases {
        let rate = rate(0, per_second, per_mb).copy();
        assert!(rt; price(&rate, weight(ref_time, proof_size)) == wanted);
    }
    Ok(())
}

fn two_clear_origins(alloc: Global) -> Result<Program, AllocError>
    ensures count { IfOk result (λ program. deep_count program ≡ 2) }
    ensures light { IfOk result (λ program. AreLight 2 program) }
{
    let items = vec![in alloc; Instruction::ClearOrigin, Instruction::ClearOrigin]?;
    Ok(Program::from_vec(items))
}

/// An appendix of two instructions.
fn with_appendix(alloc: Global) -> Result<Program, AllocError>
    ensures count { IfOk result (λ program. deep_count program ≡ 3) }
    ensures light { IfOk result (λ program. AreLight 3 program) }
{
    let xcm = two_clear_origins(alloc)?;
    let items = vec![in alloc; Instruction::SetAppendix { xcm }]?;
    Ok(Program::from_vec(items))
}

/// A call that may weigh (5, 7).
fn with_call(alloc: Global) -> Result<Program, AllocError>
    ensures count { IfOk result (λ program. deep_count program ≡ 1) }
    ensures light { IfOk result (λ program. AreLight 3 program) }
{
    let call = Instruction::Transact {
        origin_kind: OriginKind::Native,
        require_weight_at_most: weight(5, 7),
        call: LongBytes::from_vec(Vec::new(alloc)),
    };
    let items = vec![in alloc; call]?;
    Ok(Program::from_vec(items))
}

#[test]
fn programs_are_weighed(rt: HostRuntime) -> Result<(), Fail> {
    let alloc = rt.alloc();
    let clears = two_clear_origins(alloc)?;
    let appendix = with_appendix(alloc)?;
    let call = with_call(alloc)?;
    // what an instruction weighs, the most instructions, and the three weights, if they are computable
    let most = u64::MAX;
    let cases = [
        (
            weight(1000, 100),
            3,
            Some((2000, 200)),
            Some((3000, 300)),
            Some((1005, 107)),
        ),
        (weight(1, 1), 2, Some((2, 2)), None, Some((6, 8))),
        (weight(1, 1), 1, None, None, Some((6, 8))),
        (weight(1 << 63, 0), 9, None, None, Some(((1 << 63) + 5, 7))),
        (
            weight(most - 5, most - 7),
            9,
            None,
            None,
            Some((most, most)),
        ),
        (weight(0, most - 6), 9, None, None, None),
    ];
    for (unit, max_instructions, of_clears, of_appendix, of_call) in cases {
        let rule = WeightRule {
            unit,
            max_instructions,
        };
        let weights = [
            (weigh(&clears, &rule), of_clears),
            (weigh(&appendix, &rule), of_appendix),
            (weigh(&call, &rule), of_call),
        ];
        for (found, wanted) in weights {
            let wanted = wanted.map(|w| weight(w.0, w.1)).ok_or(NotComputable);
            assert!(rt; found == wanted);
        }
    }
    Ok(())
}

/// What the instructions weigh at (1000, 100) for each.
fn weighed(program: &Program) -> Weight
    requires few { deep_count program.now ≤ 3 }
    requires light { AreLight 3 program.now }
{
    let rule = WeightRule {
        unit: weight(1000, 100),
        max_instructions: 1,
    };
    weigh_rest(program.items(), &rule)
}

#[test]
fn what_is_left_is_weighed(rt: HostRuntime) -> Result<(), Fail> {
    let alloc = rt.alloc();
    // the most instructions of the rule are counted on admission alone
    let appendix = with_appendix(alloc)?;
    assert!(rt; weighed(&appendix) == weight(3000, 300));
    let call = with_call(alloc)?;
    assert!(rt; weighed(&call) == weight(1005, 107));
    Ok(())
}

/// A trader, and a book that lists the asset of each rate.
#[derive(Drop)]
struct Shop {
    trader: Trader,
    book: BurnBook,
}

/// The asset of the rate, as a book lists it.
fn row(rate: &Rate) -> (AssetId, Kind)
    ensures { result ≡ listed_of (coin_of rate.now) }
{
    (AssetId::Concrete(rate.asset.copy()), Kind::Fungible)
}

/// A shop with two rates.
fn opened(alloc: Global, first: Rate, second: Rate) -> Result<Shop, AllocError>
    requires { second.asset.parents ≡ first.asset.parents + 1 }
    ensures { IfOk result (λ shop. AreRatesListed shop.book.listed shop.trader) }
{
    let book = BurnBook::new(alloc, &[row(&first), row(&second)])?;
    let trader = Trader::new(alloc, &[first, second])?;
    Ok(Shop { trader, book })
}

/// What a bundle has of the asset; it is then given up.
fn held(goods: AssetBundle, parents: u8) -> u128 {
    let amount = goods.amount(&AssetId::Concrete(place(parents)));
    goods.melt();
    amount
}

/// Buys once: whether it was too expensive, and what is left of the payment.
fn buy(shop: &mut Shop, weight: Weight, payment: AssetBundle) -> (bool, AssetBundle)
    requires { AreRatesListed shop.old.book.listed shop.old.trader }
{
    match shop.trader.buy(weight, payment, &mut shop.book) {
        Ok(left) => (false, left),
        Err((payment, TooExpensive)) => (true, payment),
    }
}

/// What a purchase leaves, and what is given back for a second and handed out at the end.
#[derive(PartialEq, Eq, Drop)]
struct Trade {
    too_expensive: bool,
    left: u128,
    paid: (u128, u128),
    given: u128,
    closed: u128,
}

/// Buys so much time at a new shop with so much of an asset, and gives back a second.
fn traded(alloc: Global, parents: u8, amount: u128, ref_time: u64) -> Result<Trade, AllocError>
    requires { 0 < amount }
{
    let mut shop = opened(alloc, rate(0, 8, 0), rate(1, 2, 0))?;
    let id = AssetId::Concrete(place(parents));
    let fun = Fun::Fungible(amount);
    let payment = AssetBundle::mint(alloc, &[Asset { id, fun }])?;
    let (too_expensive, rest) = buy(&mut shop, weight(ref_time, 0), payment);
    let left = held(rest, parents);
    let paid = (shop.trader.paid(&place(0)), shop.trader.paid(&place(1)));
    let given = held(shop.trader.refund(weight(SECOND, 0))?, parents);
    let closed = held(shop.trader.close()?, parents);
    Ok(Trade {
        too_expensive,
        left,
        paid,
        given,
        closed,
    })
}

/// The only payment of a trader: the parents of its asset's id, and the amount.
fn lone_payment(trader: &Trader) -> Option<(u8, u128)> {
    let (id, amount) = trader.lone_payment()?;
    match id {
        AssetId::Concrete(place) => Some((place.parents, amount)),
        AssetId::Abstract(_) => None,
    }
}

#[test]
fn a_trader_forgets_its_only_payment(rt: HostRuntime) -> Result<(), Fail> {
    let alloc = rt.alloc();
    let mut shop = opened(alloc, rate(0, 8, 0), rate(1, 2, 0))?;
    assert!(rt; !shop.trader.is_paid());
    let id = AssetId::Concrete(place(1));
    let fun = Fun::Fungible(7);
    let payment = AssetBundle::mint(alloc, &[Asset { id, fun }])?;
    let (too_expensive, rest) = buy(&mut shop, weight(SECOND, 0), payment);
    let left = held(rest, 1);
    assert!(rt; !too_expensive && left == 5);
    assert!(rt; shop.trader.is_paid() && lone_payment(&shop.trader) == Some((1, 2)));
    shop.trader.forget();
    assert!(rt; !shop.trader.is_paid() && lone_payment(&shop.trader).is_none());
    Ok(())
}

/// A second of computation.
const SECOND: u64 = 1_000_000_000_000;

#[test]
fn weight_is_bought_and_given_back(rt: HostRuntime) -> Result<(), Fail> {
    // the asset and the amount of the payment, the time, whether it is too expensive, what is left, what is paid in both assets, and what
    // is given back and handed out
    for (parents, amount, ref_time, too_expensive, left, paid, given, closed) in [
        (1, 7, SECOND, false, 5, (0, 2), 2, 0),
        (0, 8, SECOND, false, 0, (8, 0), 8, 0),
        (0, 7, SECOND, true, 7, (0, 0), 0, 0),
        (1, 1, SECOND, true, 1, (0, 0), 0, 0),
        (1, 7, 1, false, 7, (0, 0), 0, 0),
        (0, 50, 2 * SECOND + SECOND / 2, false, 30, (20, 0), 8, 12),
    ] {
        let found = traded(rt.alloc(), parents, amount, ref_time)?;
        let want = Trade {
            too_expensive,
            left,
            paid,
            given,
            closed,
        };
        assert!(rt; found == want);
    }
    law_of_conserved_payments();
    Ok(())
}

#[test]
fn what_is_told_is_given_back(rt: HostRuntime) -> Result<(), Fail> {
    let alloc = rt.alloc();
    let mut shop = opened(alloc, rate(0, 8, 0), rate(1, 2, 0))?;
    let payment = Asset {
        id: AssetId::Concrete(place(1)),
        fun: Fun::Fungible(7),
    };
    let payment = AssetBundle::mint(alloc, &[payment])?;
    let excess = shop.trader.excess_of(weight(SECOND, 0), &payment);
    let (too_expensive, rest) = buy(&mut shop, weight(SECOND, 0), payment);
    let left = held(rest, 1);
    assert!(rt; !too_expensive);
    assert!(rt; (excess, left) == (None, 5));
    assert!(rt; shop.trader.refund_of(weight(SECOND, 0)) == Some((place(1), 2)));
    assert!(rt; shop.trader.refund_of(weight(0, 0)) == None);
    let id = AssetId::Concrete(place(1));
    let saturated = shop.book.total(&id, Kind::Fungible, Cause::Saturated);
    assert!(rt; saturated == Total::ZERO);
    Ok(())
}

/// Buys once and pays from what is left of a payment: what is left then.
fn buy_more(shop: &mut Shop, weight: Weight, payment: AssetBundle) -> AssetBundle
    requires { AreRatesListed shop.old.book.listed shop.old.trader }
    ensures { AreRatesListed shop.new.book.listed shop.new.trader }
{
    match shop.trader.buy(weight, payment, &mut shop.book) {
        Ok(left) => left,
        Err((payment, TooExpensive)) => payment,
    }
}

/// A bundle of 1 of the first rate's asset.
fn one_unit(alloc: Global) -> Result<AssetBundle, AllocError> {
    let unit = Asset {
        id: AssetId::Concrete(place(0)),
        fun: Fun::Fungible(1),
    };
    AssetBundle::mint(alloc, &[unit])
}

#[test]
fn a_refund_is_at_most_what_was_paid(rt: HostRuntime) -> Result<(), Fail> {
    let alloc = rt.alloc();
    let mut shop = opened(alloc, rate(0, 1, 0), rate(1, 2, 0))?;
    let some = weight(SECOND + SECOND / 2, 0);
    let first = held(buy_more(&mut shop, some, one_unit(alloc)?), 0);
    let second = held(buy_more(&mut shop, some, one_unit(alloc)?), 0);
    assert!(rt; (first, second) == (0, 0));
    // three seconds cost 3, and 2 was paid
    assert!(rt; held(shop.trader.refund(weight(3 * SECOND, 0))?, 0) == 2);
    Ok(())
}

/// The price of 2^64-1 in both dimensions at a rate of 2^64-1 for each: 340282366920938463426481119 for the time
/// and 324518553658426726747971648487424 for the proof. 2^128-1 pays it 1,048,574 times.
const DEAR: u128 = 324_518_893_940_793_647_686_435_074_968_543;

#[test]
fn what_is_paid_saturates(rt: HostRuntime) -> Result<(), Fail> {
    let alloc = rt.alloc();
    let most = weight(u64::MAX, u64::MAX);
    let dear = rate(0, u64::MAX, u64::MAX);
    assert!(rt; price(&dear, most) == DEAR);
    let mut shop = opened(alloc, dear, rate(1, 2, 0))?;
    let whole = Asset {
        id: AssetId::Concrete(place(0)),
        fun: Fun::Fungible(u128::MAX),
    };
    let mut payment = AssetBundle::mint(alloc, &[whole])?;
    for _ in 0..1_048_574 {
        payment = buy_more(&mut shop, most, payment);
    }
    let left = held(payment, 0);
    assert!(rt; left == 292_225_864_705_134_218_635_131_703_203_773);
    assert!(rt; shop.trader.paid(&place(0)) == u128::MAX - left);
    // once more: so much passes 2^128-1
    let above = 32_293_029_235_659_429_051_303_371_764_770;
    let price = Asset {
        id: AssetId::Concrete(place(0)),
        fun: Fun::Fungible(DEAR),
    };
    let payment = AssetBundle::mint(alloc, &[price])?;
    let told = shop.trader.excess_of(most, &payment);
    let left = held(buy_more(&mut shop, most, payment), 0);
    assert!(rt; told == Some((place(0), above)));
    assert!(rt; left == 0);
    assert!(rt; shop.trader.paid(&place(0)) == u128::MAX);
    let saturated = shop.book.total(
        &AssetId::Concrete(place(0)),
        Kind::Fungible,
        Cause::Saturated,
    );
    assert!(rt;
        saturated
            == Total {
                high: 0,
                low: above
            }
    );
    Ok(())
}
