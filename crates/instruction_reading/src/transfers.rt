//! Instructions that move assets to an account or another chain. Each puts the fields after the number, in their order, into the slot for the instruction.

ghost use Rattle.std.specs.Prelude.{◌≡◌, []};
ghost use Rattle.scale_codec.specs.Reading.{made2};
ghost use Rattle.location_wire.specs.Reading.{location_at};
ghost use Rattle.asset_wire.specs.Reading.{assets_at, filter_at};
ghost use Rattle.xcm_program.specs.declared.instruction.Instruction.TheOpen.{Instruction-F};
ghost use Rattle.instruction_reading.specs.Answers.{FilledHead};

use crate::inside::{nothing_inside, put, take_location};
use asset_wire::{Version, WireFault, take_assets, take_filter};
use scale_codec::Cursor;
use std::alloc::Global;
use xcm_program::Instruction;

/// Assets, and whose account takes them.
pub(crate) fn fill_transfer_asset(
    alloc: Global,
    c: &mut Cursor<'_>,
    v: Version,
    slot: &mut Instruction,
) -> Result<(), WireFault>
    ensures { FilledHead result (made2 (assets_at v) location_at Instruction-F.TransferAsset c.old)
        slot.new c.new }
{
    let assets = take_assets(alloc, c, v)?;
    let beneficiary = take_location(alloc, c)?;
    put(
        slot,
        Instruction::TransferAsset {
            assets,
            beneficiary,
        },
    );
    Ok(())
}

/// Assets, and the other chain.
pub(crate) fn fill_transfer_reserve_asset(
    alloc: Global,
    c: &mut Cursor<'_>,
    v: Version,
    slot: &mut Instruction,
) -> Result<(), WireFault>
    ensures { FilledHead result (made2 (assets_at v) location_at
        (λ list place. Instruction-F.TransferReserveAsset list place []) c.old) slot.new c.new }
{
    let assets = take_assets(alloc, c, v)?;
    let dest = take_location(alloc, c)?;
    let xcm = nothing_inside(alloc);
    put(
        slot,
        Instruction::TransferReserveAsset { assets, dest, xcm },
    );
    Ok(())
}

/// Which assets, and whose account takes them.
pub(crate) fn fill_deposit_asset(
    alloc: Global,
    c: &mut Cursor<'_>,
    v: Version,
    slot: &mut Instruction,
) -> Result<(), WireFault>
    ensures { FilledHead result (made2 (filter_at v) location_at Instruction-F.DepositAsset c.old)
        slot.new c.new }
{
    let assets = take_filter(alloc, c, v)?;
    let beneficiary = take_location(alloc, c)?;
    put(
        slot,
        Instruction::DepositAsset {
            assets,
            beneficiary,
        },
    );
    Ok(())
}

/// Which assets, and the other chain.
pub(crate) fn fill_deposit_reserve_asset(
    alloc: Global,
    c: &mut Cursor<'_>,
    v: Version,
    slot: &mut Instruction,
) -> Result<(), WireFault>
    ensures { FilledHead result (made2 (filter_at v) location_at
        (λ taken place. Instruction-F.DepositReserveAsset taken place []) c.old) slot.new
        c.new }
{
    let assets = take_filter(alloc, c, v)?;
    let dest = take_location(alloc, c)?;
    let xcm = nothing_inside(alloc);
    put(slot, Instruction::DepositReserveAsset { assets, dest, xcm });
    Ok(())
}

/// Which assets, and their reserve.
pub(crate) fn fill_initiate_reserve_withdraw(
    alloc: Global,
    c: &mut Cursor<'_>,
    v: Version,
    slot: &mut Instruction,
) -> Result<(), WireFault>
    ensures { FilledHead result (made2 (filter_at v) location_at
        (λ taken place. Instruction-F.InitiateReserveWithdraw taken place []) c.old) slot.new
        c.new }
{
    let assets = take_filter(alloc, c, v)?;
    let reserve = take_location(alloc, c)?;
    let xcm = nothing_inside(alloc);
    put(
        slot,
        Instruction::InitiateReserveWithdraw {
            assets,
            reserve,
            xcm,
        },
    );
    Ok(())
}

/// Which assets, and the other chain.
pub(crate) fn fill_initiate_teleport(
    alloc: Global,
    c: &mut Cursor<'_>,
    v: Version,
    slot: &mut Instruction,
) -> Result<(), WireFault>
    ensures { FilledHead result (made2 (filter_at v) location_at
        (λ taken place. Instruction-F.InitiateTeleport taken place []) c.old) slot.new c.new }
{
    let assets = take_filter(alloc, c, v)?;
    let dest = take_location(alloc, c)?;
    let xcm = nothing_inside(alloc);
    put(slot, Instruction::InitiateTeleport { assets, dest, xcm });
    Ok(())
}
