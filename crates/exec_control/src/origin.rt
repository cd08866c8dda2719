//! The origin register.
ghost use Rattle.std.specs.Prelude.{◌≡◌, true, false, MatchOption, IfOk, OnErr};
ghost use Rattle.xcm_program.specs.declared.instruction.Instruction.TheOpen.{Instruction-F};
ghost use Rattle.exec_rules.specs.Machine.{machine};
ghost use Rattle.exec_rules.specs.Functions.{Ran, IsReadyFor};
ghost use Rattle.exec_rules.specs.Stopping.{LeftOnOom};
ghost use Rattle.exec_rules.specs.Origins.{fits_below, descended};

use exec_base::{Host, Registers};
use locations::{Junctions, Location};
use operands::XcmError;
use std::alloc::AllocError;

/// 10 ClearOrigin: the origin register becomes empty.
pub fn clear_origin<H: Host>(
    r: &mut Registers,
    h: &mut H,
) -> Result<Result<(), XcmError>, AllocError>
    requires ready { IsReadyFor Instruction-F.ClearOrigin (machine r.old (H.part h.old)) }
    ensures ok { IfOk result (λ answer. Ran Instruction-F.ClearOrigin (machine r.old (H.part h.old))
        answer (machine r.new (H.part h.new))) }
    ensures err { OnErr result (LeftOnOom Instruction-F.ClearOrigin (machine r.old (H.part h.old))
        (machine r.new (H.part h.new))) }
{
    r.origin = None;
    Ok(Ok(()))
}

/// 11 DescendOrigin: the junctions are appended to the origin, unless it would then have more than 8.
pub fn descend_origin<H: Host>(
    r: &mut Registers,
    h: &mut H,
    interior: &Junctions,
) -> Result<Result<(), XcmError>, AllocError>
    requires ready { IsReadyFor (Instruction-F.DescendOrigin interior.now)
        (machine r.old (H.part h.old)) }
    ensures ok { IfOk result (λ answer. Ran (Instruction-F.DescendOrigin interior.now)
        (machine r.old (H.part h.old)) answer (machine r.new (H.part h.new))) }
    ensures err { OnErr result (LeftOnOom (Instruction-F.DescendOrigin interior.now)
        (machine r.old (H.part h.old)) (machine r.new (H.part h.new))) }
{
    let Some(who) = &r.origin else {
        return Ok(Err(XcmError::BadOrigin));
    };
    match descended(who, interior) {
        Some(place) => {
            r.origin = Some(place);
            Ok(Ok(()))
        }
        None => Ok(Err(XcmError::LocationFull)),
    }
}

/// The location below, where it has at most 8 junctions.
fn descended(who: &Location, interior: &Junctions) -> Option<Location>
    ensures { MatchOption result
        (fits_below who.now interior.now ≡ false)
        (λ place. (fits_below who.now interior.now ≡ true)
        × (place ≡ descended who.now interior.now)) }
{
    let mut place = who.copy();
    match place.interior.append(interior) {
        Ok(()) => Some(place),
        Err(_) => None,
    }
}
