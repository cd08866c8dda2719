//! What accounts hold when a network opens: instances that are at two homes, derivatives that aren't covered, and checking accounts
//! below what other homes hold.
ghost use Rattle.std.specs.Prelude.{◌≡◌, ◌&&◌, nat_lt, find, Some};
ghost use Rattle.std.specs.Ordering.{eq_by_cmp};
ghost use Rattle.std.specs.Option.{option_copied};
ghost use Rattle.locations.specs.Order.{junctions_cmp};
ghost use Rattle.locations.specs.Chains.{path_of};
ghost use Rattle.asset_lists.specs.Units.{instance_in};
ghost use Rattle.asset_lists.specs.Listed.{same_kind};
ghost use Rattle.asset_bundles.specs.Totals.{wide_value};
ghost use Rattle.chain_ids.specs.Chains.{same_chain};
ghost use Rattle.law_coherence.specs.UniversalAssets.{every};
ghost use Rattle.law_coherence.specs.Networks as networks;
ghost use Rattle.law_coherence.specs.Networks.{asset_of_row, is_native_role};
ghost use Rattle.law_coherence.specs.Causes as causes;
ghost use Rattle.law_coherence.specs.Causes.{elsewhere, entry_at};
ghost use Rattle.network_steps.specs.Genesis.{entry_of, entries_of};
ghost use Rattle.network_coherence.specs.Answers.{finding_of, document_table, entries_in};
ghost use Rattle.network_coherence.specs.Balances as balances;
ghost use Rattle.network_coherence.specs.Balances.{has_some, some_balance};
ghost use Rattle.network_coherence.specs.Parts as parts;
ghost use Rattle.network_coherence.specs.Parts.{chain_sharing, row_sharing, unbacked, checkings_short};

use crate::balances::{amount_at, amount_for, has_account, has_owner, is_of};
use crate::listings::is_native;
use crate::paths::{context_of, is_asset, same_chain, same_kind};
use crate::{Incoherent, IncoherentCause};
use asset_bundles::WideSum;
use asset_lists::{Fun, Kind};
use chain_ids::ChainId;
use locations::Junctions;
use network_spec::{Balance, ChainSpec, NetworkSpec};
use trust_tables::{AssetRole, AssetRow};

// ---- homes

/// Whether a chain's row lists the asset as native.
fn is_home_row(context: &Junctions, other: &AssetRow, home: &Junctions, row: &AssetRow) -> bool
    ensures { result ≡ (is_native_role other.now.role
        && (eq_by_cmp junctions_cmp (path_of context.now other.now.id)
        (path_of home.now row.now.id) && same_kind other.now.kind row.now.kind)) }
{
    is_native(&other.role) && is_asset(context, &other.id, other.kind, home, row)
}

/// Whether the asset is at home at a chain.
fn is_home(spec: &NetworkSpec, home: &Junctions, row: &AssetRow, at: &ChainSpec) -> bool
    ensures { result ≡ networks.is_home (path_of home.now row.now.id, row.now.kind)
        (document_table spec.now at.now) }
{
    let context = context_of(spec, at);
    let rows = at.assets.items();
    rows.iter()
        .any(|other| is_home_row(&context, other, home, row))
}

// ---- instances at two homes

/// Whether it is an instance, and not an amount.
fn is_instance(fun: &Fun) -> bool
    ensures { result ≡ causes.is_class_instance (instance_in fun.now) }
{
    matches!(fun, Fun::NonFungible(_))
}

/// Whether a balance is of an instance of the asset that has an owner at another chain too.
fn is_shared(
    spec: &NetworkSpec,
    home: &Junctions,
    row: &AssetRow,
    balance: &Balance,
    at: &ChainSpec,
) -> bool
    ensures { result ≡ has_some (balances.is_shared home.now
        (path_of home.now row.now.id, row.now.kind) (entry_of spec.now at.now)) balance.now }
{
    let fun = &balance.asset.fun;
    balance.asset.amount() > 0
        && is_of(home, &balance.asset, home, row)
        && is_instance(fun)
        && has_owner(spec, home, row, at, fun)
}

/// Whether one of the balances is of such an instance.
fn has_shared(
    spec: &NetworkSpec,
    home: &Junctions,
    row: &AssetRow,
    accounts: &[Balance],
    at: &ChainSpec,
) -> bool
    ensures { result ≡ some_balance (balances.is_shared home.now
        (path_of home.now row.now.id, row.now.kind) (entry_of spec.now at.now)) accounts.now }
{
    accounts
        .iter()
        .any(|balance| is_shared(spec, home, row, balance, at))
}

/// Whether another chain is a home of a row's asset, where an instance has an owner that has one at the row's chain too.
fn shares_instance(spec: &NetworkSpec, here: &ChainSpec, row: &AssetRow, at: &ChainSpec) -> bool
    ensures { result ≡ causes.shares_instance
        (asset_of_row (document_table spec.now here.now) row.now)
        (entry_of spec.now here.now) (entry_of spec.now at.now) }
{
    let home = context_of(spec, here);
    let accounts = here.accounts.items();
    is_home(spec, &home, row, at) && has_shared(spec, &home, row, accounts, at)
}

/// The first of the later chains that shares an instance of the row's asset.
fn first_sharing(
    spec: &NetworkSpec,
    here: &ChainSpec,
    row: &AssetRow,
    later: &[ChainSpec],
) -> Option<Incoherent>
    ensures { finding_of result ≡ parts.first_sharing (entry_of spec.now here.now) row.now
        (entries_in spec.now later.now) }
{
    for at in later {
        if shares_instance(spec, here, row, at) {
            return Some(Incoherent {
                cause: IncoherentCause::InstanceTwice,
                first: here.chain,
                second: at.chain,
            });
        }
    }
    None
}

/// The same, where the row is native. What has amounts has no instances.
fn row_sharing(
    spec: &NetworkSpec,
    here: &ChainSpec,
    row: &AssetRow,
    later: &[ChainSpec],
) -> Option<Incoherent>
    ensures { finding_of result ≡ row_sharing (entry_of spec.now here.now)
        (entries_in spec.now later.now) row.now }
{
    if same_kind(row.kind, Kind::Fungible) {
        return None;
    }
    if is_native(&row.role) {
        return first_sharing(spec, here, row, later);
    }
    None
}

/// The same of the first of a chain's rows.
fn chain_sharing(spec: &NetworkSpec, here: &ChainSpec, later: &[ChainSpec]) -> Option<Incoherent>
    ensures { finding_of result ≡ chain_sharing (entry_of spec.now here.now)
        (entries_in spec.now later.now) }
{
    let rows = here.assets.items();
    for row in rows {
        if let Some(found) = row_sharing(spec, here, row, later) {
            return Some(found);
        }
    }
    None
}

/// The first chain, and the first later one, at which an instance has an owner at two homes.
pub(crate) fn instance_twice(spec: &NetworkSpec) -> Option<Incoherent>
    ensures { finding_of result ≡ causes.instance_twice (entries_of spec.now) }
{
    let mut chains = spec.chains.items();
    while let Some((here, later)) = chains.split_first() {
        if let Some(found) = chain_sharing(spec, here, later) {
            return Some(found);
        }
        chains = later;
    }
    None
}

// ---- derivatives and their reserves

/// Whether a balance is of the asset, and the chain's account at another chain has nothing of its unit.
fn is_uncovered(
    spec: &NetworkSpec,
    chain: ChainId,
    home: &Junctions,
    row: &AssetRow,
    balance: &Balance,
    at: &ChainSpec,
) -> bool
    ensures { result ≡ has_some (balances.is_uncovered home.now
        (path_of home.now row.now.id, row.now.kind) chain (entry_of spec.now at.now))
        balance.now }
{
    let fun = &balance.asset.fun;
    balance.asset.amount() > 0
        && is_of(home, &balance.asset, home, row)
        && !has_account(spec, chain, home, row, at, fun)
}

/// Whether one of the balances is of such a unit.
fn has_uncovered(
    spec: &NetworkSpec,
    chain: ChainId,
    home: &Junctions,
    row: &AssetRow,
    accounts: &[Balance],
    at: &ChainSpec,
) -> bool
    ensures { result ≡ some_balance (balances.is_uncovered home.now
        (path_of home.now row.now.id, row.now.kind) chain (entry_of spec.now at.now))
        accounts.now }
{
    accounts.iter().any(|balance| is_uncovered(spec, chain, home, row, balance, at))
}

/// Whether the chain's account at the reserve has less than the chain's accounts have of the row's asset, or lacks one of its units.
/// Where they have nothing there is no unit, and what has amounts is one unit.
fn is_short(spec: &NetworkSpec, here: &ChainSpec, row: &AssetRow, reserve: &ChainSpec) -> bool
    ensures { result ≡ causes.is_short (asset_of_row (document_table spec.now here.now) row.now)
        (entry_of spec.now here.now) (Some (entry_of spec.now reserve.now)) }
{
    let home = context_of(spec, here);
    let owed = amount_at(spec, &home, row, here);
    if owed.is_zero() {
        return false;
    }
    let kept = amount_for(spec, here.chain, &home, row, reserve);
    if kept.is_below(owed) {
        return true;
    }
    if same_kind(row.kind, Kind::Fungible) {
        return false;
    }
    has_uncovered(spec, here.chain, &home, row, here.accounts.items(), reserve)
}

/// The chain of this name.
fn chain_at(spec: &NetworkSpec, chain: ChainId) -> Option<&ChainSpec>
    ensures { option_copied result ≡ find (λ c. same_chain c.chain chain) spec.now.chains }
{
    let chains = spec.chains.items();
    chains.iter().find(|c| same_chain(c.chain, chain))
}

/// Whether the reserve is there, and keeps too little of the row's asset for the chain.
fn is_short_at(spec: &NetworkSpec, here: &ChainSpec, row: &AssetRow, reserve: ChainId) -> bool
    ensures { result ≡ causes.is_short (asset_of_row (document_table spec.now here.now) row.now)
        (entry_of spec.now here.now) (entry_at (entries_of spec.now) reserve) }
{
    match chain_at(spec, reserve) {
        None => false,
        Some(at) => is_short(spec, here, row, at),
    }
}

/// A row's reserve, where it keeps too little; a native asset has no reserve.
fn row_unbacked(spec: &NetworkSpec, here: &ChainSpec, row: &AssetRow) -> Option<Incoherent>
    ensures { finding_of result ≡ causes.not_backed (entries_of spec.now)
        (entry_of spec.now here.now) row.now row.now.role }
{
    match &row.role {
        AssetRole::Native { .. } => None,
        AssetRole::Derivative { reserve } => {
            if is_short_at(spec, here, row, *reserve) {
                return Some(Incoherent {
                    cause: IncoherentCause::NotBacked,
                    first: here.chain,
                    second: *reserve,
                });
            }
            None
        }
    }
}

/// The first such reserve of a chain's rows.
fn chain_unbacked(spec: &NetworkSpec, here: &ChainSpec) -> Option<Incoherent>
    ensures { finding_of result ≡ parts.not_backed_at (entries_of spec.now)
        (entry_of spec.now here.now) }
{
    let rows = here.assets.items();
    for row in rows {
        if let Some(found) = row_unbacked(spec, here, row) {
            return Some(found);
        }
    }
    None
}

/// The first reserve that keeps too little.
pub(crate) fn not_backed(spec: &NetworkSpec) -> Option<Incoherent>
    ensures { finding_of result ≡ unbacked (entries_of spec.now) (entries_of spec.now) }
{
    let chains = spec.chains.items();
    for here in chains {
        if let Some(found) = chain_unbacked(spec, here) {
            return Some(found);
        }
    }
    None
}

// ---- checking accounts

/// What a chain holds of the asset, where it is another one than `here` and the asset is at home there.
fn share_elsewhere(
    spec: &NetworkSpec,
    here: ChainId,
    home: &Junctions,
    row: &AssetRow,
    at: &ChainSpec,
) -> WideSum
    ensures { wide_value result ≡ balances.share_elsewhere
        (path_of home.now row.now.id, row.now.kind) here (entry_of spec.now at.now) }
{
    if !same_chain(at.chain, here) && is_home(spec, home, row, at) {
        return amount_at(spec, home, row, at);
    }
    WideSum::ZERO
}

/// Whether an amount is below what the other homes of a row's asset hold.
fn is_below_elsewhere(spec: &NetworkSpec, here: &ChainSpec, row: &AssetRow, amount: u128) -> bool
    ensures { result ≡ nat_lt amount
        (elsewhere (asset_of_row (document_table spec.now here.now) row.now)
        here.now.chain (entries_of spec.now)) }
{
    let home = context_of(spec, here);
    let mut left = amount;
    let chains = spec.chains.items();
    for at in chains {
        let share = share_elsewhere(spec, here.chain, &home, row, at);
        let Some(rest) = share.taken_from(left) else {
            return true;
        };
        left = rest;
    }
    false
}

/// A row's checking account, where it is below what other homes hold.
fn row_short(spec: &NetworkSpec, here: &ChainSpec, row: &AssetRow) -> Option<Incoherent>
    ensures { finding_of result ≡ causes.falls_short (entries_of spec.now)
        (entry_of spec.now here.now) row.now (causes.checking_in row.now.role) }
{
    match &row.role {
        AssetRole::Native {
            checking: Some(amount),
            ..
        } if is_below_elsewhere(spec, here, row, *amount) => Some(Incoherent {
            cause: IncoherentCause::CheckingShort,
            first: here.chain,
            second: here.chain,
        }),
        _ => None,
    }
}

/// The first such checking account of a chain's rows.
fn chain_short(spec: &NetworkSpec, here: &ChainSpec) -> Option<Incoherent>
    ensures { finding_of result ≡ parts.falls_short_at (entries_of spec.now)
        (entry_of spec.now here.now) }
{
    let rows = here.assets.items();
    for row in rows {
        if let Some(found) = row_short(spec, here, row) {
            return Some(found);
        }
    }
    None
}

/// The first checking account that is below what other homes hold.
pub(crate) fn checking_short(spec: &NetworkSpec) -> Option<Incoherent>
    ensures { finding_of result ≡ checkings_short (entries_of spec.now) (entries_of spec.now) }
{
    let chains = spec.chains.items();
    for here in chains {
        if let Some(found) = chain_short(spec, here) {
            return Some(found);
        }
    }
    None
}
