//! What holds of every step: laws, as the contracts of functions that do nothing.
ghost use Rattle.std.specs.Prelude.{◌≡◌, ℕ, List, Some, Ok, slice_get};
ghost use Rattle.chain_ids.specs.declared.chain.ChainId.{ChainId};
ghost use Rattle.exec_base.specs.Sending.{IsForwardable};
ghost use Rattle.versioned_xcm.specs.Reading.{message_of};
ghost use Rattle.xcm_program.specs.declared.instruction.Instruction.{Instruction};
ghost use Rattle.network_steps.specs.Worlds.{World, place_of};
ghost use Rattle.network_steps.specs.Steps.{exec, deliver, claim};
ghost use Rattle.network_steps.specs.Fixed.{all_settings};
ghost use Rattle.network_steps.specs.Still.{IsStill};

use versioned_xcm::{law_of_messages, law_of_writable};

/// Whatever program bytes decode to can be executed and sent on: no id of it is bytes, no amount is 0, and it isn't too large to be counted.
pub fn law_of_decoded_programs()
    ensures forwardable { (bytes : List ℕ) (program : List Instruction)
        → message_of bytes ≡ Ok program → IsForwardable program }
{
    law_of_messages();
    law_of_writable();
}

/// A step that answers neither that a program ran nor that a claim was sent changes nothing, and tells nothing. An execution changes its
/// chain alone, a delivery the sender and the receiver, and a claim the sender.
pub fn law_of_no_change_elsewhere()
    ensures exec_still { (w : World) (chain : ChainId) (account bytes : List ℕ)
        → IsStill (exec w chain account bytes) w }
    ensures deliver_still { (w : World) (from to : ChainId) → IsStill (deliver w from to) w }
    ensures claim_still { (w : World) (from to : ChainId) (bytes : List ℕ)
        → IsStill (claim w from to bytes) w }
    ensures exec_elsewhere { (w : World) (chain : ChainId) (account bytes : List ℕ) (i k : ℕ)
        → place_of w chain ≡ Some i
        → (k ≡ i → ⊥) → slice_get (exec w chain account bytes).world k ≡ slice_get w k }
    ensures deliver_elsewhere { (w : World) (from to : ChainId) (i j k : ℕ)
        → place_of w from ≡ Some i → place_of w to ≡ Some j
        → (k ≡ i → ⊥) → (k ≡ j → ⊥) → slice_get (deliver w from to).world k ≡ slice_get w k }
    ensures claim_elsewhere { (w : World) (from to : ChainId) (bytes : List ℕ) (i k : ℕ)
        → place_of w from ≡ Some i
        → (k ≡ i → ⊥) → slice_get (claim w from to bytes).world k ≡ slice_get w k }
{}

/// No step changes what the network document says: how each chain runs programs, where it is, what it lists, its pallets, its fee
/// account, whether it has calls and locks, its pools, and its channels.
pub fn law_of_constant_settings()
    ensures exec { (w : World) (chain : ChainId) (account bytes : List ℕ)
        → all_settings (exec w chain account bytes).world ≡ all_settings w }
    ensures deliver { (w : World) (from to : ChainId)
        → all_settings (deliver w from to).world ≡ all_settings w }
    ensures claim { (w : World) (from to : ChainId) (bytes : List ℕ)
        → all_settings (claim w from to bytes).world ≡ all_settings w }
{}
