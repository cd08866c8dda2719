//! The assets of the holding as another chain names them.
ghost use Rattle.std.specs.Prelude.{◌≡◌, false, IfOk};
ghost use Rattle.std.specs.Option.{option_map};
ghost use Rattle.asset_lists.specs.Lists.{is_rising, has_zero};
ghost use Rattle.exec_rules.specs.Reports.{named_assets, named_list};
ghost use Rattle.exec_transfers.specs.Naming.{TellsList};

use asset_lists::Asset;
use locations::{Junctions, Location};
use std::alloc::{AllocError, Global};

/// The assets that the target can name, as it names them, in the order given.
fn named_assets(
    alloc: Global,
    items: &[Asset],
    target: &Location,
    context: &Junctions,
) -> Result<Vec<Asset>, AllocError>
    ensures { IfOk result (λ named. named.items ≡ named_assets target.now context.now items.now) }
{
    let mut named = Vec::new(alloc);
    for item in items {
        if let Some(seen) = item.reanchored(target, context) {
            named.push(seen)?;
        }
    }
    Ok(named)
}

/// Whether each asset comes before the next.
fn is_rising(items: &[Asset]) -> bool
    ensures { result ≡ is_rising items.now }
{
    for i in 1..items.len() {
        if !items[i - 1].unit_cmp(&items[i]).is_lt() {
            return false;
        }
    }
    true
}

/// The same as a list, in its order; none where two of them become the same.
pub(crate) fn named_list(
    alloc: Global,
    items: &[Asset],
    target: &Location,
    context: &Junctions,
) -> Result<Option<Vec<Asset>>, AllocError>
    requires some { has_zero items.now ≡ false }
    ensures { IfOk result (λ named. TellsList (named_list target.now context.now items.now)
        (option_map (λ list. list.items) named)) }
{
    let mut named = named_assets(alloc, items, target, context)?;
    named.sort_unstable();
    if is_rising(named.as_slice()) {
        Ok(Some(named))
    } else {
        Ok(None)
    }
}
