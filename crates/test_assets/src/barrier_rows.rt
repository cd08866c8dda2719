//! What each barrier allows and refuses.
use asset_lists::{Asset, AssetId, Assets, Filter, Fun, Wild};
use barriers::{Barrier, OpenQuery, Origins, Program, Weight, allow, law_of_barriers};
use locations::{Junction, Junctions, Location};
use operands::{Response, WeightLimit};
use plain_lists::Boxed;
use std::alloc::{AllocError, Global};
use std::test::Fail;
use xcm_program::Instruction;

fn weight(ref_time: u64, proof_size: u64) -> Weight {
    Weight {
        ref_time,
        proof_size,
    }
}

/// So much time and so much of proofs, or no limit.
type Most = Option<(u64, u64)>;

fn limit_of(most: Most) -> WeightLimit {
    match most {
        Some((ref_time, proof_size)) => WeightLimit::Limited(weight(ref_time, proof_size)),
        None => WeightLimit::Unlimited,
    }
}

const WEIGHT: Weight = Weight {
    ref_time: 4000,
    proof_size: 400,
};

fn para(number: u32) -> Location {
    Location {
        parents: 0,
        interior: Junctions::from_few(&[Junction::Parachain(number)]),
    }
}

fn asset(parents: u8) -> Asset {
    Asset {
        id: AssetId::Concrete(Location {
            parents,
            interior: Junctions::empty(),
        }),
        fun: Fun::Fungible(7),
    }
}

/// An instruction that brings so many assets, or burns them.
fn bringing(alloc: Global, index: u8, count: u8) -> Result<Instruction, Fail> {
    let mut items = Vec::new(alloc);
    for parents in 0..count {
        items.push(asset(parents))?;
    }
    let assets = Assets::from_sorted(items)?;
    Ok(match index {
        0 => Instruction::WithdrawAsset { assets },
        1 => Instruction::ReserveAssetDeposited { assets },
        2 => Instruction::ReceiveTeleportedAsset { assets },
        24 => Instruction::ClaimAsset {
            assets,
            ticket: Boxed::new(alloc, para(1))?,
        },
        _ => Instruction::BurnAsset { assets },
    })
}

/// So many assets, ClearOrigins, a purchase and a deposit.
fn paying(
    alloc: Global,
    (index, count): (u8, u8),
    clears: usize,
    most: Most,
) -> Result<Program, Fail> {
    let mut list = vec![in alloc; bringing(alloc, index, count)?]?;
    for _ in 0..clears {
        list.push(Instruction::ClearOrigin)?;
    }
    let (fees, limit) = (Boxed::new(alloc, asset(0))?, limit_of(most));
    list.push(Instruction::BuyExecution { fees, limit })?;
    list.push(Instruction::DepositAsset {
        assets: Filter::Wild(Wild::AllCounted(1)),
        beneficiary: Boxed::new(alloc, para(1))?,
    })?;
    Ok(Program::from_vec(list))
}

/// The first instruction and its assets, ClearOrigins, the limit, and whether the paid barrier allows.
const PAYING: &[((u8, u8), usize, Most, bool)] = &[
    ((0, 1), 0, None, true),
    ((0, 1), 1, Some((5000, 500)), true),
    ((0, 1), 3, Some((4000, 400)), true),
    ((0, 1), 4, Some((4000, 400)), false),
    ((0, 0), 0, Some((4000, 400)), true),
    ((0, 2), 1, Some((4000, 400)), true),
    ((0, 3), 1, Some((4000, 400)), false),
    ((0, 1), 1, Some((9000, 399)), false),
    ((0, 1), 1, Some((3999, 400)), false),
    ((0, 1), 1, Some((3999, 900)), false),
    ((1, 2), 1, None, true),
    ((2, 2), 1, None, true),
    ((24, 2), 1, None, true),
    ((28, 2), 1, None, false),
];

/// Whether the program is answered so, and leaves the barrier with its weight as the limit, or as it was.
fn pays(
    alloc: Global,
    first: (u8, u8),
    clears: usize,
    most: Most,
    wanted: bool,
) -> Result<bool, Fail> {
    let mut program = paying(alloc, first, clears, most)?;
    let barriers = [Barrier::Credit, Barrier::Paid];
    let answer = allow(&barriers, &para(1), &mut program, WEIGHT, Weight::ZERO, &[]);
    let after = if wanted { Some((4000, 400)) } else { most };
    Ok(answer == wanted && program == paying(alloc, first, clears, after)?)
}

/// The first two parachains.
fn origins(alloc: Global) -> Result<Origins, AllocError> {
    Ok(Origins::from_vec(vec![in alloc; para(1), para(2)]?))
}

/// Whether copies of barriers are the same.
fn are_copied(alloc: Global) -> Result<bool, AllocError> {
    let explicit = Barrier::Explicit(origins(alloc)?);
    let same = explicit.copy(alloc)?;
    let paid = Barrier::Paid.copy(alloc)?;
    Ok(same == explicit && paid == Barrier::Paid)
}

/// The origin, the limit that the program names, the credit, and the answers where the first two parachains need not pay, where their
/// messages that say so need not, and where credit is taken.
const NOT_PAYING: &[(u32, Most, (u64, u64), [bool; 3])] = &[
    (2, None, (0, 0), [true, true, false]),
    (1, Some((4000, 400)), (4000, 400), [true, true, true]),
    (1, Some((4000, 399)), (9000, 900), [false, true, true]),
    (1, Some((3999, 400)), (3999, 900), [false, true, false]),
    (3, None, (9000, 399), [false, false, false]),
];

/// Whether the barrier allows a program that doesn't pay.
fn allows(
    alloc: Global,
    barriers: &[Barrier],
    number: u32,
    most: Most,
    (ref_time, proof_size): (u64, u64),
) -> Result<bool, AllocError> {
    let first = Instruction::UnpaidExecution {
        limit: limit_of(most),
        check_origin: Boxed::new(alloc, None)?,
    };
    let mut program = Program::from_vec(vec![in alloc; first]?);
    let credit = weight(ref_time, proof_size);
    Ok(allow(barriers, &para(number), &mut program, WEIGHT, credit, &[]))
}

/// Whether a program that doesn't pay is answered so where it need not pay, where it says so and need not, and where credit is taken.
fn are_allowed(
    alloc: Global,
    number: u32,
    most: Most,
    credit: (u64, u64),
    wanted: [bool; 3],
) -> Result<bool, AllocError> {
    let explicit = [Barrier::Explicit(origins(alloc)?)];
    let unpaid = [Barrier::Unpaid(origins(alloc)?)];
    Ok(
        allows(alloc, &explicit, number, most, credit)? == wanted[0]
            && allows(alloc, &unpaid, number, most, credit)? == wanted[1]
            && allows(alloc, &[Barrier::Credit], number, most, credit)? == wanted[2],
    )
}

/// The query, the origin, the responses, and the answer where parachain 1 may answer query 7.
const RESPONSES: &[(u64, u32, u8, bool)] = &[
    (7, 1, 1, true),
    (7, 2, 1, false),
    (9, 1, 1, false),
    (7, 1, 2, false),
    (7, 1, 0, false),
];

/// An empty response.
fn response(alloc: Global, query_id: u64) -> Result<Instruction, AllocError> {
    let querier = Boxed::new(alloc, Some(para(9)))?;
    Ok(Instruction::QueryResponse {
        query_id,
        response: Response::Null,
        max_weight: Weight::ZERO,
        querier,
    })
}

/// Whether so many responses are let in.
fn responds(alloc: Global, query_id: u64, number: u32, count: u8) -> Result<bool, AllocError> {
    let mut list = Vec::new(alloc);
    for _ in 0..count {
        list.push(response(alloc, query_id)?)?;
    }
    let mut program = Program::from_vec(list);
    let open = OpenQuery {
        id: 7,
        from: para(1),
    };
    let barriers = [Barrier::Responses];
    let origin = para(number);
    Ok(allow(
        &barriers,
        &origin,
        &mut program,
        WEIGHT,
        Weight::ZERO,
        &[open],
    ))
}

#[test]
fn barriers_allow_and_refuse(rt: HostRuntime) -> Result<(), Fail> {
    let alloc = rt.alloc();
    for (first, clears, most, wanted) in PAYING {
        let (index, count) = *first;
        assert!(rt;
            pays(alloc, *first, *clears, *most, *wanted)?,
            "instruction {index} with {count} assets and {clears} ClearOrigins"
        );
    }
    for (number, most, credit, wanted) in NOT_PAYING {
        assert!(rt;
            are_allowed(alloc, *number, *most, *credit, *wanted)?,
            "from {number}"
        );
    }
    for (query_id, number, count, wanted) in RESPONSES {
        assert!(rt;
            responds(alloc, *query_id, *number, *count)? == *wanted,
            "query {query_id} from {number}"
        );
    }
    assert!(rt; are_copied(alloc)?);
    law_of_barriers();
    Ok(())
}
