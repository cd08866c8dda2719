//! What all accounts hold, account by account.
ghost use Rattle.std.specs.Prelude.{◌≡◌, ◌++◌, map, IfOk, OnOk};
ghost use Rattle.asset_lists.specs.declared.units.Asset.{Asset};
ghost use Rattle.asset_bundles.specs.Bundles.{held_assets};
ghost use Rattle.ledgers.specs.Ledgers.{account_goods};
ghost use Rattle.ledgers.specs.Holdings.{all_holdings};

use crate::Ledger;
use asset_lists::Asset;
use std::alloc::{AllocError, Global};

/// All that accounts hold: accounts by their bytes, and each one's assets in holding order. An amount
/// is in the asset's smallest unit. An `Err` is out of memory.
pub fn all_holdings(alloc: Global, ledger: &Ledger) -> Result<Vec<([u8; 32], Asset)>, AllocError>
    ensures { IfOk result (λ list. list.items ≡ all_holdings ledger.now.held) }
{
    let mut list = Vec::new(alloc);
    let mut after = None;
    while let Some(who) = ledger.next_account(after.as_ref()) {
        push_account(&mut list, &who, ledger)?;
        after = Some(who);
    }
    Ok(list)
}

/// Appends what an account holds.
fn push_account(
    list: &mut Vec<([u8; 32], Asset)>,
    who: &[u8; 32],
    ledger: &Ledger,
) -> Result<(), AllocError>
    ensures { OnOk result (list.new.items ≡ list.old.items ++ map
        (λ (a : Asset). (who.now, a)) (held_assets (account_goods who.now ledger.now.held))) }
{
    for asset in ledger.held(who)? {
        list.push((*who, asset))?;
    }
    Ok(())
}
