//! Checking accounts: how much of an asset may be at its other homes, row by row.
ghost use Rattle.std.specs.Prelude.{◌≡◌};
ghost use Rattle.exec_base.specs.Host.{changed_rows, changed_all};
ghost use Rattle.chain_state.specs.Checked.{change_by};

use asset_lists::Asset;
use trust_tables::{AssetRow, find_row};

/// The amount with so much added, at most 2^128-1, or with so much taken from it, at least 0.
fn change_by(rises: bool, amount: u128, by: u128) -> u128
    ensures { result ≡ change_by rises amount by }
{
    if rises {
        return amount.saturating_add(by);
    }
    amount.saturating_sub(by)
}

/// Changes the checking account of the asset's row, if it has one.
fn change(rows: &[AssetRow], checking: &mut [Option<u128>], asset: &Asset, rises: bool)
    ensures { checking.new ≡ changed_rows (change_by rises) asset.now rows.now checking.old }
{
    let Some(place) = find_row(rows, asset) else {
        return;
    };
    if place >= checking.len() {
        return;
    }
    if let Some(amount) = checking[place] {
        checking[place] = Some(change_by(rises, amount, asset.amount()));
    }
}

/// Changes the checking accounts of the rows of these assets: each rises by the asset's amount, at most to 2^128-1, or falls by it, at
/// most to 0. It takes no memory.
pub(crate) fn change_all(
    rows: &[AssetRow],
    checking: &mut [Option<u128>],
    list: &[Asset],
    rises: bool,
)
    ensures { checking.new ≡ changed_all (change_by rises) list.now rows.now checking.old }
{
    for asset in list {
        change(rows, checking, asset, rises);
    }
}
