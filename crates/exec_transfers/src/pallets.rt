//! The chain's pallets, as a report tells of them.
ghost use Rattle.std.specs.Prelude.{◌≡◌, ◌≤◌, length, IfOk};
ghost use Rattle.exec_rules.specs.Reports.{pallets_of};
ghost use Rattle.exec_transfers.specs.Naming.{pallets_named};

use exec_base::Host;
use operands::{BoundedVec, LongBytes, PalletInfo, PalletInfos};
use std::alloc::{AllocError, Global};

/// The pallets with that module name, in the order given.
fn pallets_named(
    alloc: Global,
    pallets: &[PalletInfo],
    name: &LongBytes,
) -> Result<Vec<PalletInfo>, AllocError>
    ensures named { IfOk result (λ found. found.items ≡ pallets_named pallets.now name.now) }
    ensures few { IfOk result (λ found. length found.items ≤ length pallets.now) }
{
    let mut found = Vec::new(alloc);
    for pallet in pallets {
        if pallet.module_name.items() == name.items() {
            found.push(pallet.copy()?)?;
        }
    }
    Ok(found)
}

/// The chain's pallets with that module name, in listed order.
pub(crate) fn told_pallets<H: Host>(
    alloc: Global,
    h: &H,
    name: &LongBytes,
) -> Result<PalletInfos, AllocError>
    ensures { IfOk result (λ told. told ≡ pallets_of (H.part h.now) name.now) }
{
    let found = pallets_named(alloc, h.pallets(), name)?;
    Ok(BoundedVec::from_vec(found))
}
