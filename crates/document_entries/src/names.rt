//! Texts, accounts and chains.
ghost use Rattle.std.specs.Prelude.{◌≡◌, Option};
ghost use Rattle.std.specs.Option.{option_map};
ghost use Rattle.serde_json.specs.View.{view};
ghost use Rattle.document_entries.specs.Answers.{Answers, AnswersAs};
ghost use Rattle.document_entries.specs.Forms as forms;
ghost use Rattle.document_entries.specs.Forms.{text, bytes32_form, bytes32, behind_0x, chain};

use crate::{NetworkFault, Place, Stop};
use chain_ids::ChainId;
use hex::FromHex;
use serde_json::Value;

/// A text.
#[tactic(auto, unfolding(crate::specs::Forms::text))]
pub fn text_of(place: Place, value: &Value) -> Result<&str, Stop>
    ensures { AnswersAs (λ s. s.now) result (text place (view value.now)) }
{
    match value.as_str() {
        Some(text) => Ok(text),
        None => Err(Stop::Fault(NetworkFault::WrongKind(place))),
    }
}

/// What is after `0x` at the front.
pub(crate) fn behind_0x(text: &[u8]) -> Option<&[u8]>
    ensures { option_map (λ s. s.now) result ≡ behind_0x text.now }
{
    text.strip_prefix(b"0x")
}

/// The 32 bytes of `0x` and 64 hex digits of either case.
pub fn bytes32(text: &[u8]) -> Option<[u8; 32]>
    ensures { result ≡ bytes32 text.now }
{
    let digits = behind_0x(text)?;
    <[u8; 32] as FromHex>::from_hex(digits).ok()
}

/// 32 bytes, as `0x` and 64 hex digits of either case.
#[tactic(auto, unfolding(crate::specs::Forms::bytes32_form))]
pub fn bytes_of(place: Place, value: &Value) -> Result<[u8; 32], Stop>
    ensures { Answers result (bytes32_form place (view value.now)) }
{
    let text = text_of(place, value)?;
    match bytes32(text.as_bytes()) {
        Some(bytes) => Ok(bytes),
        None => Err(Stop::Fault(NetworkFault::BadValue(place))),
    }
}

/// Whether a value is a text or a whole number, as a chain has to be.
pub(crate) fn is_chain_kind(value: &Value) -> bool
    ensures { result ≡ forms.is_chain_kind (view value.now) }
{
    value.as_str().is_some() || value.as_u64().is_some()
}

/// A chain: the text `relay`, or the number of a parachain.
#[tactic(auto, unfolding(crate::specs::Forms::chain))]
pub(crate) fn chain_of(place: Place, value: &Value) -> Result<ChainId, Stop>
    ensures { Answers result (chain place (view value.now)) }
{
    if let Some(text) = value.as_str() {
        if text == "relay" {
            return Ok(ChainId::Relay);
        }
        return Err(Stop::Fault(NetworkFault::BadValue(place)));
    }
    let Some(id) = value.as_u64() else {
        return Err(Stop::Fault(NetworkFault::WrongKind(place)));
    };
    if id > u64::from(u32::MAX) {
        return Err(Stop::Fault(NetworkFault::BadValue(place)));
    }
    Ok(ChainId::Para(id as u32))
}
