//! What is asked of the holding.
ghost use Rattle.std.specs.Prelude.{◌≡◌, OnErr, IfOk};
ghost use Rattle.xcm_program.specs.declared.instruction.Instruction.TheOpen.{Instruction-F};
ghost use Rattle.exec_rules.specs.Machine.{machine};
ghost use Rattle.exec_rules.specs.Functions.{Ran, IsReadyFor};
ghost use Rattle.exec_rules.specs.Stopping.{LeftOnOom};

use asset_bundles::law_of_bundles;
use asset_lists::Assets;
use exec_base::{Host, Registers};
use operands::XcmError;
use std::alloc::AllocError;

/// 29 ExpectAsset: asks whether all the assets are held in full.
pub fn expect_asset<H: Host>(
    r: &mut Registers,
    h: &mut H,
    assets: &Assets,
) -> Result<Result<(), XcmError>, AllocError>
    requires ready { IsReadyFor (Instruction-F.ExpectAsset assets.now)
        (machine r.old (H.part h.old)) }
    ensures ok { IfOk result (λ answer. Ran (Instruction-F.ExpectAsset assets.now)
        (machine r.old (H.part h.old)) answer (machine r.new (H.part h.new))) }
    ensures err { OnErr result (LeftOnOom (Instruction-F.ExpectAsset assets.now)
        (machine r.old (H.part h.old)) (machine r.new (H.part h.new))) }
{
    // For the prover alone: no unit is twice in a list.
    law_of_bundles();
    let _list = assets.items();
    if r.holding.contains(assets) {
        Ok(Ok(()))
    } else {
        Ok(Err(XcmError::ExpectationFalse))
    }
}
