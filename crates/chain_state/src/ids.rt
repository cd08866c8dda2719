//! The ids of the fungible assets that a chain lists.
ghost use Rattle.std.specs.Prelude.{◌≡◌, map, IfOk};
ghost use Rattle.chain_state.specs.Fees.{fungible_ids};

use asset_lists::{AssetId, Kind};
use std::alloc::{AllocError, Global};

/// The ids of the fungible ones of these assets, in their order, lent.
pub(crate) fn fungible_ids<'a>(
    alloc: Global,
    listed: &'a [(AssetId, Kind)],
) -> Result<Vec<&'a AssetId>, AllocError>
    ensures { IfOk result (λ ids. map (λ id. id.now) ids.items ≡ fungible_ids listed.now) }
{
    let mut ids = Vec::with_capacity(alloc, listed.len())?;
    for asset in listed {
        if asset.1 == Kind::Fungible {
            ids.push(&asset.0)?;
        }
    }
    Ok(ids)
}
