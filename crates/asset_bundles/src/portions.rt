//! Parts of a list in holding order.
ghost use Rattle.std.specs.Prelude.{◌≡◌, ◌++◌, ◌<◌, [], IsTrue, IfOk, OnOk, vec_len, vec_capacity};
ghost use Rattle.asset_lists.specs.declared.filters.Filter.{Filter};
ghost use Rattle.asset_lists.specs.Units.{unit_of, amount_of};
ghost use Rattle.amounts.specs.Amounts.{difference};
ghost use Rattle.asset_bundles.specs.Bundles.{bundle_of, IsHolding};
ghost use Rattle.asset_bundles.specs.Joins.{IsListOf};
ghost use Rattle.asset_bundles.specs.Filters.{is_fun, is_all_of, Taken, Left};
ghost use Rattle.asset_bundles.specs.Portions.{fun_with, asset_with, with_remainder, changed, left_of, common_with, wanted_wild, count_wild, at_most, chosen, IsListed};

use crate::items::held;
use asset_lists::{Asset, AssetId, Assets, Filter, Fun, Wild, WildFun, copied, push_asset};
use std::alloc::{AllocError, Global};

/// So much of the asset; an instance stays as it is.
#[inline(always)]
fn fun_with(fun: Fun, amount: u128) -> Fun
    ensures { result ≡ fun_with fun amount }
{
    match fun {
        Fun::Fungible(_) => Fun::Fungible(amount),
        Fun::NonFungible(instance) => Fun::NonFungible(instance),
    }
}

/// Makes it so much of the asset; an instance stays as it is.
#[inline(always)]
pub(crate) fn set_amount(item: &mut Asset, amount: u128)
    ensures { item.new ≡ asset_with item.old amount }
{
    item.fun = fun_with(item.fun, amount);
}

/// Makes room for one asset more at the end of a list. Since most lists have one asset, the first takes no more memory than it needs.
pub fn make_room(list: &mut Vec<Asset>) -> Result<(), AllocError>
    ensures items { list.new.items ≡ list.old.items }
    ensures len { vec_len list.new ≡ vec_len list.old }
    ensures room { OnOk result (vec_len list.new < vec_capacity list.new) }
{
    if list.is_empty() {
        return list.reserve_exact(1);
    }
    list.reserve(1)
}

/// Puts the asset with this amount at the end, unless that is 0.
#[tactic(auto, using(crate::proofs::Parts::kept_some, crate::proofs::Parts::kept_none))]
pub(crate) fn push_amount(
    list: &mut Vec<Asset>,
    item: &Asset,
    amount: u128,
) -> Result<(), AllocError>
    ensures { OnOk result (list.new.items ≡ list.old.items ++ with_remainder item.now amount []) }
{
    if amount == 0 {
        return Ok(());
    }
    make_room(list)?;
    push_asset(list, &item.id, fun_with(item.fun, amount));
    Ok(())
}

/// What is left where these are taken.
pub(crate) fn without(
    alloc: Global,
    items: &[Asset],
    taken: &[Asset],
) -> Result<Vec<Asset>, AllocError>
    ensures { IfOk result (λ left. left.items ≡ changed (left_of taken.now) items.now) }
{
    let mut left = Vec::new(alloc);
    for item in items {
        let amount = item.amount().saturating_sub(held(taken, item));
        push_amount(&mut left, item, amount)?;
    }
    Ok(left)
}

/// What there is of these, as far as it is asked for.
fn common(alloc: Global, items: &[Asset], asked: &[Asset]) -> Result<Vec<Asset>, AllocError>
    ensures { IfOk result (λ both. both.items ≡ changed (common_with asked.now) items.now) }
{
    let mut both = Vec::new(alloc);
    for item in items {
        let amount = item.amount().min(held(asked, item));
        push_amount(&mut both, item, amount)?;
    }
    Ok(both)
}

/// Whether a wildcard's kind is that of the asset.
fn is_fun(item: &Asset, fun: WildFun) -> bool
    ensures { result ≡ is_fun fun (unit_of item.now).1 }
{
    match (fun, &item.fun) {
        (WildFun::Fungible, Fun::Fungible(_)) => true,
        (WildFun::Fungible, Fun::NonFungible(_)) => false,
        (WildFun::NonFungible, Fun::Fungible(_)) => false,
        (WildFun::NonFungible, Fun::NonFungible(_)) => true,
    }
}

/// Whether it is an amount of the id, or an instance of the class, as the wildcard says.
fn is_all_of(item: &Asset, id: &AssetId, fun: WildFun) -> bool
    ensures { result ≡ is_all_of id.now fun (unit_of item.now) }
{
    *id == item.id && is_fun(item, fun)
}

/// What a wildcard wants of an asset, were there no count.
fn wanted(item: &Asset, wild: &Wild) -> u128
    ensures { result ≡ wanted_wild wild.now (unit_of item.now) (amount_of item.now) }
{
    let all = match wild {
        Wild::All => true,
        Wild::AllOf { id, fun } => is_all_of(item, id.value(), *fun),
        Wild::AllCounted(_) => true,
        Wild::AllOfCounted { id, fun, count: _ } => is_all_of(item, id.value(), *fun),
    };
    if all { item.amount() } else { 0 }
}

/// How many kinds a wildcard takes at most.
fn count_of(wild: &Wild) -> Option<u32>
    ensures { result ≡ count_wild wild.now }
{
    match wild {
        Wild::All => None,
        Wild::AllOf { id: _, fun: _ } => None,
        Wild::AllCounted(count) => Some(*count),
        Wild::AllOfCounted {
            id: _,
            fun: _,
            count,
        } => Some(*count),
    }
}

/// What a wildcard wants of all assets, were there no count.
fn all_wanted(alloc: Global, items: &[Asset], wild: &Wild) -> Result<Vec<Asset>, AllocError>
    ensures { IfOk result (λ all. all.items ≡ changed (wanted_wild wild.now) items.now) }
{
    let mut all = Vec::new(alloc);
    for item in items {
        push_amount(&mut all, item, wanted(item, wild))?;
    }
    Ok(all)
}

/// What a wildcard takes.
fn picked(alloc: Global, items: &[Asset], wild: &Wild) -> Result<Vec<Asset>, AllocError>
    ensures { IfOk result (λ taken. taken.items
        ≡ at_most (count_wild wild.now) (changed (wanted_wild wild.now) items.now)) }
{
    let mut taken = all_wanted(alloc, items, wild)?;
    match count_of(wild) {
        Some(count) => {
            taken.truncate(count as usize);
            Ok(taken)
        }
        None => Ok(taken),
    }
}

/// What a filter takes of a list in holding order.
pub(crate) fn chosen(
    alloc: Global,
    items: &[Asset],
    filter: &Filter,
) -> Result<Vec<Asset>, AllocError>
    ensures taken { IfOk result (λ taken. taken.items ≡ chosen filter.now items.now) }
    ensures listed { IfOk result (λ _. IsListed filter.now) }
{
    match filter {
        Filter::Definite(list) => {
            let taken = common(alloc, items, list.items())?;
            Ok(taken)
        }
        Filter::Wild(wild) => {
            let taken = picked(alloc, items, wild)?;
            Ok(taken)
        }
    }
}

/// Whether a filter is seen to take all of a list in holding order, by its kind and count alone.
pub(crate) fn takes_all(items: &[Asset], filter: &Filter) -> bool
    requires { IsHolding items.now }
    ensures { IsTrue result → IsListOf (Taken filter.now (bundle_of items.now)) items.now }
{
    match filter {
        Filter::Definite(_) => false,
        Filter::Wild(wild) => is_for_all(items, wild),
    }
}

/// The same of a wildcard.
fn is_for_all(items: &[Asset], wild: &Wild) -> bool
    requires { IsHolding items.now }
    ensures { IsTrue result
        → IsListOf (Taken (Filter.Wild wild.now) (bundle_of items.now)) items.now }
{
    match wild {
        Wild::All => true,
        Wild::AllCounted(count) => items.len() <= *count as usize,
        Wild::AllOf { .. } | Wild::AllOfCounted { .. } => false,
    }
}

/// What a filter takes of a list in holding order, and what it leaves.
pub(crate) fn parted(
    alloc: Global,
    items: &[Asset],
    filter: &Filter,
) -> Result<(Vec<Asset>, Vec<Asset>), AllocError>
    requires { IsHolding items.now }
    ensures taken { IfOk result (λ parts. IsListOf (Taken filter.now (bundle_of items.now))
        parts.0.items) }
    ensures left { IfOk result (λ parts. IsListOf (Left filter.now (bundle_of items.now))
        parts.1.items) }
{
    let taken = chosen(alloc, items, filter)?;
    let left = without(alloc, items, taken.as_slice())?;
    Ok((taken, left))
}

/// What there is of the listed assets, as far as it is asked for, and what is left.
pub(crate) fn parted_by_list(
    alloc: Global,
    items: &[Asset],
    asked: &Assets,
) -> Result<(Vec<Asset>, Vec<Asset>), AllocError>
    requires { IsHolding items.now }
    ensures taken { IfOk result
        (λ parts. IsListOf (Taken (Filter.Definite asked.now) (bundle_of items.now))
        parts.0.items) }
    ensures left { IfOk result
        (λ parts. IsListOf (Left (Filter.Definite asked.now) (bundle_of items.now)) parts.1.items) }
{
    let taken = common(alloc, items, asked.items())?;
    let left = without(alloc, items, taken.as_slice())?;
    Ok((taken, left))
}

/// These assets, and what is left where they are taken.
pub(crate) fn cut(
    alloc: Global,
    items: &[Asset],
    asked: &[Asset],
) -> Result<(Vec<Asset>, Vec<Asset>), AllocError>
    requires items { IsHolding items.now }
    requires asked { IsHolding asked.now }
    ensures taken { IfOk result (λ parts. IsListOf (bundle_of asked.now) parts.0.items) }
    ensures left { IfOk result
        (λ parts. IsListOf (difference (bundle_of items.now) (bundle_of asked.now)) parts.1.items) }
{
    let taken = copied(alloc, asked)?;
    let left = without(alloc, items, asked)?;
    Ok((taken, left))
}
