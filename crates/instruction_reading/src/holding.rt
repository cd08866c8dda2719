//! Instructions about the holding and fees. Each puts the fields after the number, in their order, into the slot for the instruction.

ghost use Rattle.std.specs.Prelude.{◌≡◌};
ghost use Rattle.scale_codec.specs.Reading.{made1, made2, made3, flag_at};
ghost use Rattle.location_wire.specs.Reading.{location_at};
ghost use Rattle.asset_wire.specs.Reading.{asset_at, assets_at, filter_at};
ghost use Rattle.xcm_format.specs.Reading.{weight_limit_at};
ghost use Rattle.xcm_program.specs.declared.instruction.Instruction.TheOpen.{Instruction-F};
ghost use Rattle.instruction_reading.specs.Answers.{FilledHead};

use crate::inside::{put, take_location, take_one_asset};
use asset_wire::{Version, WireFault, take_assets, take_filter};
use scale_codec::Cursor;
use std::alloc::Global;
use xcm_format::take_weight_limit;
use xcm_program::Instruction;

/// What may be given, what is wanted, and whether as much as can be had.
pub(crate) fn fill_exchange_asset(
    alloc: Global,
    c: &mut Cursor<'_>,
    v: Version,
    slot: &mut Instruction,
) -> Result<(), WireFault>
    ensures { FilledHead result (made3 (filter_at v) (assets_at v) flag_at
        Instruction-F.ExchangeAsset c.old) slot.new c.new }
{
    let give = take_filter(alloc, c, v)?;
    let want = take_assets(alloc, c, v)?;
    let maximal = c.flag()?;
    put(
        slot,
        Instruction::ExchangeAsset {
            give,
            want,
            maximal,
        },
    );
    Ok(())
}

/// The fees, and how much weight they buy.
pub(crate) fn fill_buy_execution(
    alloc: Global,
    c: &mut Cursor<'_>,
    v: Version,
    slot: &mut Instruction,
) -> Result<(), WireFault>
    ensures { FilledHead result (made2 (asset_at v) weight_limit_at Instruction-F.BuyExecution
        c.old) slot.new c.new }
{
    let fees = take_one_asset(alloc, c, v)?;
    let limit = take_weight_limit(c)?;
    put(slot, Instruction::BuyExecution { fees, limit });
    Ok(())
}

/// The trapped assets, and the ticket.
pub(crate) fn fill_claim_asset(
    alloc: Global,
    c: &mut Cursor<'_>,
    v: Version,
    slot: &mut Instruction,
) -> Result<(), WireFault>
    ensures { FilledHead result (made2 (assets_at v) location_at Instruction-F.ClaimAsset c.old)
        slot.new c.new }
{
    let assets = take_assets(alloc, c, v)?;
    let ticket = take_location(alloc, c)?;
    put(slot, Instruction::ClaimAsset { assets, ticket });
    Ok(())
}

/// Assets.
pub(crate) fn fill_withdraw_asset(
    alloc: Global,
    c: &mut Cursor<'_>,
    v: Version,
    slot: &mut Instruction,
) -> Result<(), WireFault>
    ensures { FilledHead result (made1 (assets_at v) Instruction-F.WithdrawAsset c.old) slot.new
        c.new }
{
    let assets = take_assets(alloc, c, v)?;
    put(slot, Instruction::WithdrawAsset { assets });
    Ok(())
}

/// Assets.
pub(crate) fn fill_reserve_asset_deposited(
    alloc: Global,
    c: &mut Cursor<'_>,
    v: Version,
    slot: &mut Instruction,
) -> Result<(), WireFault>
    ensures { FilledHead result (made1 (assets_at v) Instruction-F.ReserveAssetDeposited c.old)
        slot.new c.new }
{
    let assets = take_assets(alloc, c, v)?;
    put(slot, Instruction::ReserveAssetDeposited { assets });
    Ok(())
}

/// Assets.
pub(crate) fn fill_receive_teleported_asset(
    alloc: Global,
    c: &mut Cursor<'_>,
    v: Version,
    slot: &mut Instruction,
) -> Result<(), WireFault>
    ensures { FilledHead result (made1 (assets_at v) Instruction-F.ReceiveTeleportedAsset c.old)
        slot.new c.new }
{
    let assets = take_assets(alloc, c, v)?;
    put(slot, Instruction::ReceiveTeleportedAsset { assets });
    Ok(())
}

/// Assets.
pub(crate) fn fill_burn_asset(
    alloc: Global,
    c: &mut Cursor<'_>,
    v: Version,
    slot: &mut Instruction,
) -> Result<(), WireFault>
    ensures { FilledHead result (made1 (assets_at v) Instruction-F.BurnAsset c.old) slot.new c.new }
{
    let assets = take_assets(alloc, c, v)?;
    put(slot, Instruction::BurnAsset { assets });
    Ok(())
}
