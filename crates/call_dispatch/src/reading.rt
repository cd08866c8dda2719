//! From bytes to a call.

ghost use Rattle.std.specs.Prelude.{◌≡◌, ◌⊎◌, Err, MatchResult};
ghost use Rattle.scale_codec.specs.Spelling.{Spells};
ghost use Rattle.call_dispatch.specs.Spelling.{AnyCall, call, FitsCall};
ghost use Rattle.call_dispatch.specs.Reading.{call_of};
ghost use Rattle.call_dispatch.specs.Answers.{IsCallCause};

use crate::parts::take_call;
use crate::{Call, CallFault};
use scale_codec::{Cursor, WireFault};
use std::alloc::Global;

/// The call that the bytes are. `NotACall` comes exactly where they aren't one call with nothing after it.
#[tactic(auto, using(crate::proofs::Lemmas::CallLaws::is_answer))]
pub fn read_call(alloc: Global, bytes: &[u8]) -> Result<Call, CallFault>
    ensures read { (result ≡ Err CallFault.Memory) ⊎ (result ≡ call_of bytes.now) }
    ensures spelling { MatchResult result (λ c. Spells call FitsCall c bytes.now)
        (IsCallCause bytes.now) }
{
    read_alone(alloc, bytes)
}

#[tactic(auto, unfolding(crate::specs::Reading::call_of))]
fn read_alone(alloc: Global, bytes: &[u8]) -> Result<Call, CallFault>
    ensures { (result ≡ Err CallFault.Memory) ⊎ (result ≡ call_of bytes.now) }
{
    let mut c = Cursor::new(bytes);
    match take_call(alloc, &mut c) {
        Ok(call) => {
            if c.rest().is_empty() {
                Ok(call)
            } else {
                Err(CallFault::NotACall)
            }
        }
        Err(WireFault::NoSpelling) => Err(CallFault::NotACall),
        Err(WireFault::Memory) => Err(CallFault::Memory),
    }
}
