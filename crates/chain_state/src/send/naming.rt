//! Lists as another chain names them.
ghost use Rattle.std.specs.Prelude.{◌≡◌, None, Some, MatchOption, IfOk, IsTrue};
ghost use Rattle.asset_lists.specs.Moves.{moved, all_reanchored, reanchored_list};
ghost use Rattle.trust_tables.specs.Chains as chains;

use asset_bundles::make_room;
use asset_lists::{Asset, is_rising, push_reanchored};
use chain_ids::ChainId;
use locations::{Junctions, Location};
use std::alloc::{AllocError, Global};
use trust_tables::location_of;

/// How one chain names another; none where it is itself.
#[tactic(auto, using(trust_tables::proofs::Lemmas::ChainLaws::no_location_of_self))]
pub(crate) fn location_of_other(from: ChainId, to: ChainId) -> Option<Location>
    ensures { result ≡ chains.location_of from to }
{
    if from == to {
        return None;
    }
    Some(location_of(from, to))
}

/// All the assets as the target names them, in the order given; None where it can't name one.
fn all_reanchored(
    alloc: Global,
    list: &[Asset],
    target: &Location,
    context: &Junctions,
) -> Result<Option<Vec<Asset>>, AllocError>
    ensures { IfOk result (λ found. MatchOption found
        (all_reanchored target.now context.now list.now ≡ None)
        (λ all. all_reanchored target.now context.now list.now ≡ Some all.items)) }
{
    let mut all = Vec::with_capacity(alloc, list.len())?;
    for asset in list {
        make_room(&mut all)?;
        if !push_reanchored(&mut all, asset, target, context) {
            return Ok(None);
        }
    }
    Ok(Some(all))
}

/// Whether the target names the asset as this one.
fn is_seen_as(asset: &Asset, target: &Location, context: &Junctions, named: &Asset) -> bool
    ensures { IsTrue result → moved target.now context.now asset.now ≡ Some named.now }
{
    let mut seen = Asset::zero();
    asset.reanchor_into(target, context, &mut seen) && seen == *named
}

/// Whether the target names the assets as these, one by one in the order given: a quick test, which takes no memory.
pub(crate) fn are_seen_as(
    list: &[Asset],
    target: &Location,
    context: &Junctions,
    named: &[Asset],
) -> bool
    ensures { IsTrue result
        → all_reanchored target.now context.now list.now ≡ Some named.now }
{
    if list.len() != named.len() {
        return false;
    }
    for i in 0..list.len() {
        if !is_seen_as(&list[i], target, context, &named[i]) {
            return false;
        }
    }
    true
}

/// The list as the target names it, in its order; none where it can't name an asset, or where two become the same.
pub(crate) fn named(
    alloc: Global,
    list: &[Asset],
    target: &Location,
    context: &Junctions,
) -> Result<Option<Vec<Asset>>, AllocError>
    ensures { IfOk result (λ found. MatchOption found
        (reanchored_list target.now context.now list.now ≡ None)
        (λ seen. reanchored_list target.now context.now list.now ≡ Some seen.items)) }
{
    let Some(mut all) = all_reanchored(alloc, list, target, context)? else {
        return Ok(None);
    };
    // For speed: usually the order is the same under both ids.
    if is_rising(all.as_slice()) {
        return Ok(Some(all));
    }
    all.sort_unstable();
    if is_rising(all.as_slice()) {
        return Ok(Some(all));
    }
    Ok(None)
}
