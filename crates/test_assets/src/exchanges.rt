//! What a pool gives, what it wants, and what an exchange moves.

use asset_pools::{
    Deal, best_out, deal_at, law_of_least_amounts, law_of_no_less_for_more,
    law_of_products_that_never_fall, law_of_round_trips, law_of_usable_reserves, least_in,
};
use std::test::Fail;

const MILLION: u128 = 1_000_000;

/// The most that a reserve may have: 2^58-1.
const LAST: u128 = 288_230_376_151_711_743;

/// The reserve of what is given and of what is wanted, how many thousandths count, what is given, and what the pool gives.
const OUTS: &[(u128, u128, u32, u128, Option<u128>)] = &[
    (MILLION, MILLION, 997, 10_000, Some(9_871)),
    (MILLION, 0, 997, 5, None),
    (0, 10, 1000, 5, None),
    (10, 10, 1000, 0, None),
    (1, 1, 1000, 1, Some(0)),
    (7, 90, 700, 5, Some(30)),
    (1000, 1000, 1, 1000, Some(0)),
    (LAST - 1, LAST, 1000, 1, Some(1)),
    (1, LAST, 1000, LAST - 1, Some(LAST - 1)),
    (LAST, 5, 1000, 1, None),
    (5, LAST + 1, 1000, 1, None),
    (u128::MAX, 5, 1, 1, None),
    (5, 5, 1, u128::MAX, None),
];

/// The same with what is wanted, and the least amount that pays for it.
const INS: &[(u128, u128, u32, u128, Option<u128>)] = &[
    (MILLION, MILLION, 997, 9_000, Some(9_110)),
    (MILLION, MILLION, 997, MILLION, None),
    (MILLION, MILLION, 997, 9_871, Some(10_000)),
    (MILLION, MILLION, 997, 9_872, Some(10_001)),
    (0, 9, 997, 5, None),
    (9, 9, 997, 0, None),
    (9, 9, 997, 10, None),
    (7, 90, 700, 89, Some(890)),
    (7, 90, 1, 1, Some(79)),
    (1, LAST, 1000, 1, Some(1)),
    (
        144_115_188_075_855_871,
        2,
        1000,
        1,
        Some(144_115_188_075_855_871),
    ),
    (144_115_188_075_855_872, 2, 1000, 1, None),
    (1, LAST + 1, 1000, 1, None),
    (LAST + 1, 5, 1000, 1, None),
    (u128::MAX, u128::MAX, 1, 1, None),
];

/// Of two reserves of a million and a fee of 3 thousandths: what the holding has, what is wanted, whether it is to be the most, and what
/// goes to the pool and to the holding.
const DEALS: &[(u128, u128, bool, Option<(u128, u128)>)] = &[
    (10_000, 9_000, true, Some((10_000, 9_871))),
    (10_000, 9_000, false, Some((9_110, 9_000))),
    (9_110, 9_000, false, Some((9_110, 9_000))),
    (9_109, 9_000, false, None),
    (10_000, 9_871, true, Some((10_000, 9_871))),
    (10_000, 9_872, true, None),
    (10_000, 0, true, Some((10_000, 9_871))),
    (10_000, 0, false, None),
    (0, 0, true, None),
    (1, 0, true, None),
    (10_000, MILLION, false, None),
];

#[test]
fn outs(rt: HostRuntime) -> Result<(), Fail> {
    for (x, y, g, a, out) in OUTS {
        assert!(rt; 1 <= *g && *g <= 1000);
        assert_eq!(rt; best_out(*x, *y, *g, *a), *out);
    }
    Ok(())
}

#[test]
fn ins(rt: HostRuntime) -> Result<(), Fail> {
    for (x, y, g, w, least) in INS {
        assert!(rt; 1 <= *g && *g <= 1000);
        assert_eq!(rt; least_in(*x, *y, *g, *w), *least);
    }
    Ok(())
}

#[test]
fn deals(rt: HostRuntime) -> Result<(), Fail> {
    for (has, wants, maximal, moved) in DEALS {
        let expected = moved.map(|(to_pool, to_holding)| Deal {
            to_pool,
            to_holding,
        });
        assert_eq!(rt;
            deal_at(MILLION, MILLION, 997, *has, *wants, *maximal),
            expected
        );
    }
    Ok(())
}

#[test]
fn laws() {
    law_of_least_amounts();
    law_of_products_that_never_fall();
    law_of_usable_reserves();
    law_of_no_less_for_more();
    law_of_round_trips();
}
