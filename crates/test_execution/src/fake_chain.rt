//! A relay chain with three native assets, of each of which an account has 5, and the execution of messages there.
ghost use Rattle.std.specs.Prelude.{◌≡◌, [], ◌∷◌, true, None, length, map, IfOk, OnOk};
ghost use Rattle.std.specs.List.{list_all};
ghost use Rattle.asset_lists.specs.declared.units.Kind.{Kind};
ghost use Rattle.trust_tables.specs.Chains.{path_of_site};
ghost use Rattle.trust_tables.specs.Trust.{listing};
ghost use Rattle.network_steps.specs.Tests.{have_paths, row_checking, is_placeable};
ghost use Rattle.test_execution.specs.Opening.{have_no_checkings, balance_of};
ghost use Rattle.test_execution.specs.PartOf.{fake_part_of};
ghost use Rattle.exec_base.specs.Sending.{IsForwardable};
ghost use Rattle.exec_rules.specs.Readiness.{IsAtRest};
ghost use Rattle.test_execution.specs.Natives.{fixture_location, fixture_natives, five_of, balances};

use crate::FakeHost;
use asset_lists::{Asset, AssetId, Fun, Kind};
use barriers::Barrier;
use locations::{Junction, Junctions, Location, NetworkId};
use operands::{OpenQuery, Weight};
use plain_lists::Listed;
use std::alloc::{AllocError, Global};
use std::test::Fail;
use trust_tables::{AssetRole, AssetRow, ChainId, Site};
use versioned_xcm::{MessageFault, decode_message, law_of_writable};
use xcm_executor::{ChainRules, execute};
use xcm_program::{Outcome, Program, WeightRule};

/// The first account.
pub(crate) const A1: [u8; 32] = [1; 32];

/// The second account.
pub(crate) const A2: [u8; 32] = [2; 32];

const RELAY: Site = Site {
    network: NetworkId::Polkadot,
    chain: ChainId::Relay,
};

/// The most that a program may weigh.
const LIMIT: Weight = Weight {
    ref_time: 1_000_000_000_000,
    proof_size: 5_242_880,
};

/// The location of a number: the chain itself, or a general index.
fn place(number: u128) -> Location
    ensures { result ≡ fixture_location number }
{
    if number == 0 {
        return Location {
            parents: 0,
            interior: Junctions::empty(),
        };
    }
    at(Junction::GeneralIndex(number))
}

/// The location of a junction.
pub(crate) fn at(junction: Junction) -> Location
    ensures { result ≡ record { parents = 0; interior = junction ∷ [] } }
{
    let mut interior = Junctions::empty();
    match interior.push(junction) {
        Ok(()) => Location {
            parents: 0,
            interior,
        },
        Err(_) => unreachable!(),
    }
}

/// The account's location.
pub(crate) fn of(account: [u8; 32]) -> Location {
    at(Junction::AccountId32 {
        network: None,
        id: account,
    })
}

/// 5 of the asset of a number.
pub(crate) fn five(number: u128) -> Asset
    ensures { result ≡ five_of number }
{
    Asset {
        id: AssetId::Concrete(place(number)),
        fun: Fun::Fungible(5),
    }
}

/// The row of the native asset of a number.
fn row(alloc: Global, number: u128) -> AssetRow
    ensures id { result.id ≡ fixture_location number }
    ensures kind { result.kind ≡ Kind.Fungible }
    ensures unchecked { row_checking result ≡ None }
{
    AssetRow {
        id: place(number),
        kind: Kind::Fungible,
        role: AssetRole::Native {
            partners: Listed::from_vec(Vec::new(alloc)),
            checking: None,
        },
    }
}

/// The rows of three native assets.
fn rows(alloc: Global) -> Result<Vec<AssetRow>, AllocError>
    ensures listed { IfOk result (λ rows. listing rows.items ≡ fixture_natives) }
    ensures count { IfOk result (λ rows. length rows.items ≡ 3) }
    ensures paths { IfOk result (λ rows. have_paths (path_of_site RELAY) rows.items ≡ true) }
    ensures unchecked { IfOk result (λ rows. have_no_checkings rows.items ≡ true) }
    ensures balances { IfOk result (λ rows. list_all (is_placeable rows.items) balances ≡ true) }
{
    let mut rows = Vec::new(alloc);
    rows.push(row(alloc, 0))?;
    rows.push(row(alloc, 1))?;
    rows.push(row(alloc, 2))?;
    Ok(rows)
}

/// An open query of the first account, of number 7.
fn queries(alloc: Global) -> Result<Vec<OpenQuery>, AllocError> {
    let mut queries = Vec::new(alloc);
    queries.push(OpenQuery {
        id: 7,
        from: of(A1),
    })?;
    Ok(queries)
}

/// What accounts hold: the first one 5 of each asset.
fn accounts(alloc: Global) -> Result<Vec<([u8; 32], Asset)>, AllocError>
    ensures { IfOk result (λ list. map balance_of list.items ≡ balances) }
{
    let mut list = Vec::new(alloc);
    list.push((A1, five(0)))?;
    list.push((A1, five(1)))?;
    list.push((A1, five(2)))?;
    Ok(list)
}

/// The chain that lists them, with that query.
pub(crate) fn opened(alloc: Global) -> Result<FakeHost, AllocError>
    ensures rests { IfOk result (λ host. IsAtRest (fake_part_of host)) }
{
    let rows = rows(alloc)?;
    let accounts = accounts(alloc)?;
    let queries = queries(alloc)?;
    FakeHost::new(alloc, RELAY, rows, accounts, queries)
}

/// What an account has of each asset.
pub(crate) fn holdings(host: &FakeHost, who: &[u8; 32]) -> [u128; 3] {
    [
        host.amount(who, &five(0)),
        host.amount(who, &five(1)),
        host.amount(who, &five(2)),
    ]
}

/// The rules of the chain: each instruction weighs 1000 and 100, and whoever has credit may run programs.
pub(crate) fn rules(alloc: Global) -> Result<ChainRules, AllocError> {
    let unit = Weight {
        ref_time: 1000,
        proof_size: 100,
    };
    Ok(ChainRules {
        weight: WeightRule {
            unit,
            max_instructions: 100,
        },
        limit: LIMIT,
        max_holding: 64,
        barriers: Listed::from_vec(vec![in alloc; Barrier::Credit]?),
    })
}

/// The program of a message.
fn decoded(alloc: Global, bytes: &[u8]) -> Result<Program, MessageFault>
    ensures forwardable { IfOk result IsForwardable }
{
    law_of_writable(); // For the prover alone.
    decode_message(alloc, bytes)
}

/// Executes a message for the first account, in hexadecimal digits.
pub(crate) fn executed(
    alloc: Global,
    host: &mut FakeHost,
    rules: &ChainRules,
    message: &str,
) -> Result<(Outcome, bool), Fail>
    requires rest { IsAtRest (fake_part_of host.old) }
    ensures rests { OnOk result (IsAtRest (fake_part_of host.new)) }
{
    let bytes = hex::decode(alloc, message)?;
    let program = decoded(alloc, bytes.as_slice())?;
    let answer = execute(alloc, &of(A1), program, rules, LIMIT, host)?;
    Ok(answer)
}
