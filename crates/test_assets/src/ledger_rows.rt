//! Accounts: moves and their refusals, sums, owners, and the accounts in order.
ghost use Rattle.std.specs.Prelude.{◌≡◌, [], ◌∷◌, true, IsFalse, IfOk};
ghost use Rattle.std.specs.List.{list_all};
ghost use Rattle.locations.specs.declared.grammar.Junction.TheVariants.{GeneralIndex};
ghost use Rattle.asset_lists.specs.declared.units.Kind.{Kind};
ghost use Rattle.asset_lists.specs.declared.units.AssetId.TheVariants.{Concrete};
ghost use Rattle.asset_lists.specs.Units.{unit_of, is_zero};
ghost use Rattle.asset_lists.specs.Listed.{listed_of, lists};

use asset_bundles::{AssetBundle, Total};
use asset_lists::{Asset, AssetId, Assets, Fun, Instance, Kind};
use ledgers::{AccountKey, DepositFault, Ledger, LedgerFault, TransferFault, law_of_ledgers};
use locations::{Junction, Junctions, Location};
use std::alloc::{AllocError, Global};
use std::test::Fail;

const A1: [u8; 32] = [1; 32];

const A2: [u8; 32] = [2; 32];

const A3: [u8; 32] = [3; 32];

/// Why a move is refused.
#[derive(Clone, Copy, PartialEq, Eq)]
pub(crate) enum Refusal {
    Less(u128),
    Over(u128),
    Owned([u8; 32]),
    Memory,
}

pub(crate) fn here() -> Location
    ensures { result ≡ record { parents = 0; interior = [] } }
{
    Location {
        parents: 0,
        interior: Junctions::empty(),
    }
}

/// So much of the fungible asset, or, where that is 0, the instance of this number.
fn asset(amount: u128, number: u128) -> Asset
    ensures some { IsFalse (is_zero result) }
    ensures listed { list_all
        (λ a. lists ((Concrete (record { parents = 0; interior = [] }), Kind.Fungible)
        ∷ (Concrete (record { parents = 0; interior = [] }), Kind.Class) ∷ [])
        (listed_of (unit_of a))) (result ∷ []) ≡ true }
{
    let id = AssetId::Concrete(here());
    if amount > 0 {
        return Asset {
            id,
            fun: Fun::Fungible(amount),
        };
    }
    Asset {
        id,
        fun: Fun::NonFungible(Instance::Index(number)),
    }
}

/// A ledger of a fungible asset and a class.
pub(crate) fn opened(alloc: Global) -> Result<Ledger, AllocError>
    ensures { IfOk result (λ ledger. ledger.listed
        ≡ (Concrete (record { parents = 0; interior = [] }), Kind.Fungible)
        ∷ (Concrete (record { parents = 0; interior = [] }), Kind.Class) ∷ []) }
{
    let list = Vec::from_array(alloc, [(here(), Kind::Fungible), (here(), Kind::Class)])?;
    Ledger::open(alloc, list)
}

/// Deposits an asset, made for it.
pub(crate) fn put(
    ledger: &mut Ledger,
    alloc: Global,
    who: &[u8; 32],
    amount: u128,
    number: u128,
) -> Result<Option<Refusal>, AllocError>
    requires { ledger.old.listed ≡ (Concrete (record { parents = 0; interior = [] }), Kind.Fungible)
        ∷ (Concrete (record { parents = 0; interior = [] }), Kind.Class) ∷ [] }
    ensures { ledger.new.listed ≡ ledger.old.listed }
{
    let goods = AssetBundle::mint(alloc, &[asset(amount, number)])?;
    Ok(match ledger.deposit(who, goods) {
        Ok(()) => None,
        Err((goods, fault)) => {
            goods.melt();
            Some(match fault {
                DepositFault::Overflow { have } => Refusal::Over(have),
                DepositFault::InstanceExists { owner } => Refusal::Owned(owner),
                DepositFault::Memory => Refusal::Memory,
            })
        }
    })
}

/// Withdraws an asset.
fn drawn(ledger: &mut Ledger, who: &[u8; 32], list: &Assets) -> Option<Refusal>
    ensures { ledger.new.listed ≡ ledger.old.listed }
{
    match ledger.withdraw(who, list) {
        Ok(goods) => {
            goods.melt();
            None
        }
        Err(LedgerFault::NotEnough { have }) => Some(Refusal::Less(have)),
        Err(LedgerFault::Memory) => Some(Refusal::Memory),
    }
}

/// Moves an asset from an account to another.
fn sent(ledger: &mut Ledger, from: &[u8; 32], to: &[u8; 32], list: &Assets) -> Option<Refusal>
    ensures { ledger.new.listed ≡ ledger.old.listed }
{
    match ledger.transfer(from, to, list) {
        Ok(()) => None,
        Err(TransferFault::NotEnough { have }) => Some(Refusal::Less(have)),
        Err(TransferFault::Overflow { have }) => Some(Refusal::Over(have)),
        Err(TransferFault::Memory) => Some(Refusal::Memory),
    }
}

/// A withdrawal, a deposit or a transfer of an asset.
fn moved(
    ledger: &mut Ledger,
    alloc: Global,
    from: Option<[u8; 32]>,
    to: Option<[u8; 32]>,
    amount: u128,
    number: u128,
) -> Result<Option<Refusal>, AllocError>
    requires { ledger.old.listed ≡ (Concrete (record { parents = 0; interior = [] }), Kind.Fungible)
        ∷ (Concrete (record { parents = 0; interior = [] }), Kind.Class) ∷ [] }
    ensures { ledger.new.listed ≡ ledger.old.listed }
{
    let list = Assets::one(alloc, asset(amount, number))?;
    match (from, to) {
        (Some(from), Some(to)) => Ok(sent(ledger, &from, &to, &list)),
        (Some(from), None) => Ok(drawn(ledger, &from, &list)),
        (None, Some(to)) => put(ledger, alloc, &to, amount, number),
        (None, None) => Ok(None),
    }
}

/// A move, what it answers, and the sums over all accounts after it.
struct Row {
    from: Option<[u8; 32]>,
    to: Option<[u8; 32]>,
    amount: u128,
    number: u128,
    refusal: Option<Refusal>,
    low: u128,
    high: u32,
    instances: u128,
}

const MOST: u128 = u128::MAX;

const ROWS: &[Row] = &[
    Row {
        from: None,
        to: Some(A1),
        amount: 5,
        number: 0,
        refusal: None,
        low: 5,
        high: 0,
        instances: 0,
    },
    Row {
        from: None,
        to: Some(A2),
        amount: 7,
        number: 0,
        refusal: None,
        low: 12,
        high: 0,
        instances: 0,
    },
    Row {
        from: None,
        to: Some(A1),
        amount: 0,
        number: 4,
        refusal: None,
        low: 12,
        high: 0,
        instances: 1,
    },
    Row {
        from: None,
        to: Some(A2),
        amount: 0,
        number: 4,
        refusal: Some(Refusal::Owned(A1)),
        low: 12,
        high: 0,
        instances: 1,
    },
    Row {
        from: Some(A1),
        to: None,
        amount: 6,
        number: 0,
        refusal: Some(Refusal::Less(5)),
        low: 12,
        high: 0,
        instances: 1,
    },
    Row {
        from: Some(A1),
        to: None,
        amount: 5,
        number: 0,
        refusal: None,
        low: 7,
        high: 0,
        instances: 1,
    },
    Row {
        from: None,
        to: Some(A1),
        amount: 5,
        number: 0,
        refusal: None,
        low: 12,
        high: 0,
        instances: 1,
    },
    Row {
        from: Some(A1),
        to: None,
        amount: 4,
        number: 0,
        refusal: None,
        low: 8,
        high: 0,
        instances: 1,
    },
    // A fungible of which one account alone holds just 1 isn't told as an instance.
    Row {
        from: Some(A2),
        to: None,
        amount: 7,
        number: 0,
        refusal: None,
        low: 1,
        high: 0,
        instances: 1,
    },
    Row {
        from: None,
        to: Some(A1),
        amount: MOST,
        number: 0,
        refusal: Some(Refusal::Over(1)),
        low: 1,
        high: 0,
        instances: 1,
    },
    Row {
        from: Some(A1),
        to: Some(A3),
        amount: 0,
        number: 4,
        refusal: None,
        low: 1,
        high: 0,
        instances: 1,
    },
    Row {
        from: Some(A1),
        to: Some(A3),
        amount: 0,
        number: 4,
        refusal: Some(Refusal::Less(0)),
        low: 1,
        high: 0,
        instances: 1,
    },
    Row {
        from: None,
        to: Some(A2),
        amount: MOST,
        number: 0,
        refusal: None,
        low: 0,
        high: 1,
        instances: 1,
    },
    Row {
        from: Some(A1),
        to: Some(A2),
        amount: 1,
        number: 0,
        refusal: Some(Refusal::Over(MOST)),
        low: 0,
        high: 1,
        instances: 1,
    },
    Row {
        from: Some(A2),
        to: Some(A2),
        amount: MOST,
        number: 0,
        refusal: None,
        low: 0,
        high: 1,
        instances: 1,
    },
    Row {
        from: Some(A3),
        to: None,
        amount: 0,
        number: 4,
        refusal: None,
        low: 0,
        high: 1,
        instances: 0,
    },
];

/// Whether the ledger has these sums.
fn has_sums(ledger: &Ledger, row: &Row) -> bool
    requires { ledger.now.listed ≡ (Concrete (record { parents = 0; interior = [] }), Kind.Fungible)
        ∷ (Concrete (record { parents = 0; interior = [] }), Kind.Class) ∷ [] }
{
    let fungible = ledger.total(0);
    let instances = ledger.total(1);
    fungible.low == row.low
        && fungible.high == row.high
        && instances.low == row.instances
        && instances.high == 0
}

/// Whether a move is answered and leaves the sums as its row says.
fn goes(ledger: &mut Ledger, alloc: Global, row: &Row) -> Result<bool, AllocError>
    requires { ledger.old.listed ≡ (Concrete (record { parents = 0; interior = [] }), Kind.Fungible)
        ∷ (Concrete (record { parents = 0; interior = [] }), Kind.Class) ∷ [] }
    ensures { ledger.new.listed ≡ ledger.old.listed }
{
    let refusal = moved(ledger, alloc, row.from, row.to, row.amount, row.number)?;
    let right = refusal == row.refusal && has_sums(ledger, row);
    Ok(right)
}

#[test]
fn moves_and_sums(rt: HostRuntime) -> Result<(), Fail> {
    let alloc = rt.alloc();
    let mut ledger = opened(alloc)?;
    for row in ROWS {
        assert!(rt; goes(&mut ledger, alloc, row)?);
    }
    law_of_ledgers();
    Ok(())
}

/// Whether the accounts come in this order.
fn in_order(ledger: &Ledger) -> bool {
    ledger.next_account(None) == Some(A1)
        && ledger.next_account(Some(&A1)) == Some(A2)
        && ledger.next_account(Some(&A2)) == Some(A3)
        && ledger.next_account(Some(&A3)).is_none()
}

/// Whether keys of accounts are as their accounts are, and in their order.
fn are_keys() -> bool {
    let first = AccountKey::of(&A1);
    let same = AccountKey::of(&A1);
    let second = AccountKey::of(&A2);
    first == same && first != second && first < second
}

/// Whether what single accounts hold is as it was put there.
fn reads_right(ledger: &Ledger, id: &AssetId) -> bool {
    ledger.amount(&A1, id) == 9
        && ledger.count(&A1, id) == 1
        && ledger.held_of(&A1, &asset(9, 0)) == 9
        && ledger.held_of(&A1, &asset(0, 1)) == 0
        && ledger.owner(id, &Instance::Index(1)) == Some(A2)
        && ledger.owner(id, &Instance::Index(2)).is_none()
        && ledger.sum(id, Kind::Class) == Total { low: 2, high: 0 }
        && ledger.number_of(id, Kind::Class) == Some(1)
        && ledger.number_of(&AssetId::Abstract([1; 32]), Kind::Class) == None
}

/// Whether moves are refused as they would be made.
fn refuses_right(ledger: &Ledger, list: &Assets) -> bool {
    ledger.shortage(&A1, &[asset(10, 0)]) == Some(9)
        && ledger.overflow(&A1, &[asset(MOST, 0)]) == Some(9)
        && ledger.barred(&A1, &[asset(0, 1)]) == Some(DepositFault::InstanceExists { owner: A2 })
        && ledger.is_barred(&A1, &asset(0, 1))
        && ledger.transfer_fault(&A1, &A2, list).is_none()
        && ledger.transfer_fault(&A2, &A1, list) == Some(TransferFault::NotEnough { have: 0 })
}

/// Whether the first account holds just an amount of 9 and the instance 4.
fn holds_right(ledger: &Ledger) -> Result<bool, AllocError> {
    let held = ledger.held(&A1)?;
    Ok(match held.as_slice() {
        [coins, piece] => *coins == asset(9, 0) && *piece == asset(0, 4),
        _ => false,
    })
}

/// Deposits in three accounts: whether all are taken.
fn all_put(ledger: &mut Ledger, alloc: Global) -> Result<bool, AllocError>
    requires { ledger.old.listed ≡ (Concrete (record { parents = 0; interior = [] }), Kind.Fungible)
        ∷ (Concrete (record { parents = 0; interior = [] }), Kind.Class) ∷ [] }
{
    let of_third = put(ledger, alloc, &A3, 5, 0)?;
    let of_second = put(ledger, alloc, &A2, 0, 1)?;
    let piece = put(ledger, alloc, &A1, 0, 4)?;
    let coins = put(ledger, alloc, &A1, 9, 0)?;
    Ok(of_third.is_none() && of_second.is_none() && piece.is_none() && coins.is_none())
}

/// Whether the ledger answers each question as its deposits say.
fn answers_right(ledger: &Ledger, list: &Assets) -> Result<bool, AllocError> {
    let id = AssetId::Concrete(here());
    Ok(
        in_order(ledger)
            && reads_right(ledger, &id)
            && refuses_right(ledger, list)
            && holds_right(ledger)?,
    )
}

/// Whether accounts hold what is put there.
fn hold_what_is_put(alloc: Global) -> Result<bool, AllocError> {
    let nine = Assets::one(alloc, asset(9, 0))?;
    let mut ledger = opened(alloc)?;
    Ok(all_put(&mut ledger, alloc)? && answers_right(&ledger, &nine)?)
}

#[test]
fn what_accounts_hold(rt: HostRuntime) -> Result<(), Fail> {
    assert!(rt; hold_what_is_put(rt.alloc())? && are_keys());
    Ok(())
}

/// The location of the first index.
fn first_index() -> Location
    ensures { result ≡ record { parents = 0; interior = GeneralIndex 1 ∷ [] } }
{
    Location {
        parents: 0,
        interior: Junctions::from_few(&[Junction::GeneralIndex(1)]),
    }
}

/// A ledger of a fungible asset, and of a class of another id.
fn opened_apart(alloc: Global) -> Result<Ledger, AllocError> {
    let list = Vec::from_array(
        alloc,
        [(here(), Kind::Fungible), (first_index(), Kind::Class)],
    )?;
    Ledger::open(alloc, list)
}

/// Whether assets have their numbers by id and kind together.
fn are_numbered(ledger: &Ledger) -> bool {
    let coins = AssetId::Concrete(here());
    let class = AssetId::Concrete(first_index());
    ledger.number_of(&coins, Kind::Fungible) == Some(0)
        && ledger.number_of(&class, Kind::Class) == Some(1)
        && ledger.number_of(&coins, Kind::Class).is_none()
        && ledger.number_of(&class, Kind::Fungible).is_none()
}

#[test]
fn an_asset_is_listed_by_id_and_kind(rt: HostRuntime) -> Result<(), Fail> {
    let ledger = opened_apart(rt.alloc())?;
    assert!(rt; are_numbered(&ledger));
    Ok(())
}
