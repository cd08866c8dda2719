//! Calls dispatched over a ledger, whose assets they name by the numbers of its rows.
ghost use Rattle.std.specs.Prelude.{◌≡◌, ◌<◌, [], ◌∷◌, IfOk};
ghost use Rattle.asset_lists.specs.declared.units.Kind.{Kind};
ghost use Rattle.asset_lists.specs.declared.units.AssetId.TheVariants.{Concrete};
ghost use Rattle.trust_tables.specs.Trust.{listing};

use crate::ledger_rows::{here, opened, put};
use asset_lists::{AssetId, Kind};
use call_dispatch::{Batch, Call, CallEnd, NoBatch, PositiveAmount};
use plain_lists::{BoundedVec, Listed};
use row_ledger::{RowLedger, law_of_calls_of_accounts, law_of_moved_rows, law_of_rows_held};
use std::alloc::{AllocError, Global};
use std::test::Fail;
use trust_tables::{AssetRole, AssetRow};

const A1: [u8; 32] = [1; 32];

const A2: [u8; 32] = [2; 32];

const A3: [u8; 32] = [3; 32];

/// Row 0 lists a fungible asset, row 1 a class.
fn rows(alloc: Global) -> Result<Vec<AssetRow>, AllocError>
    ensures { IfOk result (λ rows. listing rows.items
        ≡ (Concrete (record { parents = 0; interior = [] }), Kind.Fungible)
        ∷ (Concrete (record { parents = 0; interior = [] }), Kind.Class) ∷ []) }
{
    let coins = AssetRow {
        id: here(),
        kind: Kind::Fungible,
        role: AssetRole::Native {
            partners: Listed::from_vec(Vec::new(alloc)),
            checking: None,
        },
    };
    let pieces = AssetRow {
        id: here(),
        kind: Kind::Class,
        role: AssetRole::Native {
            partners: Listed::from_vec(Vec::new(alloc)),
            checking: None,
        },
    };
    let rows = Vec::from_array(alloc, [coins, pieces])?;
    Ok(rows)
}

/// A ledger in which the caller has 1000, and another account all but 50 of the greatest number.
fn row_ledger(alloc: Global) -> Result<RowLedger, AllocError> {
    let rows = rows(alloc)?;
    let mut ledger = opened(alloc)?;
    put(&mut ledger, alloc, &A1, 1000, 0)?;
    put(&mut ledger, alloc, &A2, u128::MAX - 50, 0)?;
    Ok(RowLedger::new(rows, ledger))
}

/// How a call ends, and what the caller then has.
fn ended(alloc: Global, call: &Call) -> Result<(CallEnd, u128), AllocError> {
    let mut accounts = row_ledger(alloc)?;
    let end = accounts.call(&A1, call)?;
    let has = accounts.ledger().amount(&A1, &AssetId::Concrete(here()));
    Ok((end, has))
}

fn transfer<B>(row: u32, dest: [u8; 32], amount: u128) -> Call<B>
    requires { 0 < amount }
{
    Call::Transfer {
        row,
        dest,
        amount: PositiveAmount::new(amount),
    }
}

/// The row, the account that receives, how much, how the call ends, and what the caller then has.
const TRANSFERS: &[(u32, [u8; 32], u128, CallEnd, u128)] = &[
    (0, A3, 5, CallEnd::Success, 995),
    (0, A3, 1000, CallEnd::Success, 0),
    (0, A1, 1000, CallEnd::Success, 1000),
    (1, A3, 1, CallEnd::Error(1), 1000),
    (2, A3, 1, CallEnd::Error(1), 1000),
    (0, A3, 1001, CallEnd::Error(2), 1000),
    (0, A1, 1001, CallEnd::Error(2), 1000),
    (0, A2, 50, CallEnd::Success, 950),
    (0, A2, 51, CallEnd::Error(3), 1000),
];

/// Whether the call ends so, and the caller then has so much.
fn ends(alloc: Global, call: &Call, end: CallEnd, has: u128) -> Result<bool, AllocError> {
    Ok(ended(alloc, call)? == (end, has))
}

/// Whether a transfer of the row ends so, and the caller then has so much.
fn transfers(
    alloc: Global,
    row: u32,
    dest: [u8; 32],
    amount: u128,
    end: CallEnd,
    has: u128,
) -> Result<bool, AllocError> {
    // for the prover: each row has some amount
    if amount == 0 {
        return Ok(false);
    }
    ends(alloc, &transfer(row, dest, amount), end, has)
}

/// A batch of these calls, the first 8 of them.
fn batch(mut items: Vec<Call<NoBatch>>) -> Call {
    items.truncate(8);
    Call::Batch(Batch::from_vec(items))
}

/// Whether a remark moves nothing, a batch that fails neither, and a batch of two transfers both.
fn are_batched(alloc: Global) -> Result<bool, AllocError> {
    let remark = Call::Remark(BoundedVec::from_vec(Vec::new(alloc)));
    let fails = batch(vec![in alloc; transfer(0, A2, 5), Call::Fail(9)]?);
    let moves = batch(vec![in alloc; transfer(0, A2, 5), transfer(0, A3, 6)]?);
    Ok(
        ends(alloc, &remark, CallEnd::Success, 1000)?
            && ends(alloc, &fails, CallEnd::Error(9), 1000)?
            && ends(alloc, &moves, CallEnd::Success, 989)?,
    )
}

#[test]
fn calls_over_a_ledger(rt: HostRuntime) -> Result<(), Fail> {
    for (row, dest, amount, end, has) in TRANSFERS {
        assert!(rt; transfers(rt.alloc(), *row, *dest, *amount, *end, *has)?);
    }
    assert!(rt; are_batched(rt.alloc())?);
    law_of_rows_held();
    law_of_moved_rows();
    law_of_calls_of_accounts();
    Ok(())
}
