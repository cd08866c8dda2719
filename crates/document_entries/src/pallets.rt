//! Pallets, and open queries.
ghost use Rattle.serde_json.specs.View.{view};
ghost use Rattle.document_entries.specs.Answers.{Answers};
ghost use Rattle.document_entries.specs.Forms.{needed};
ghost use Rattle.document_entries.specs.Entries.{pallet, pallet_name, query, u32};

use crate::fields::needed;
use crate::names::chain_of;
use crate::numbers::whole_of;
use crate::{NetworkFault, Place, Stop, check_fields, number_of, text_of};
use chain_ids::ChainId;
use operands::{PalletInfo, PalletName};
use serde_json::Value;
use std::alloc::Global;

/// A number below 2^32.
fn u32_of(place: Place, value: &Value) -> Result<u32, Stop>
    ensures { Answers result (u32 place (view value.now)) }
{
    number_of(place, 0, u32::MAX, value)
}

/// A name of at most 48 bytes. That they are UTF-8 needs no test: a text is.
#[tactic(auto, using(crate::proofs::PalletNames::short_text), unfolding(crate::specs::Entries::pallet_name))]
fn name_of(alloc: Global, place: Place, value: &Value) -> Result<PalletName, Stop>
    ensures { Answers result (pallet_name place (view value.now)) }
{
    let text = text_of(place, value)?;
    if text.len() > 48 {
        return Err(Stop::Fault(NetworkFault::BadValue(place)));
    }
    let bytes = Vec::from_slice(alloc, text.as_bytes())?;
    Ok(PalletName::from_vec(bytes))
}

/// A pallet.
#[tactic(auto, unfolding(crate::specs::Entries::pallet, crate::specs::Forms::fields, crate::specs::Forms::required_field))]
pub fn pallet_of(alloc: Global, place: Place, value: &Value) -> Result<PalletInfo, Stop>
    ensures { Answers result (pallet place (view value.now)) }
{
    check_fields(
        place,
        &["index", "name", "module_name", "major", "minor", "patch"],
        value,
    )?;
    let index = u32_of(place, needed(place, "index", value)?)?;
    let name = name_of(alloc, place, needed(place, "name", value)?)?;
    let module_name = name_of(alloc, place, needed(place, "module_name", value)?)?;
    let major = u32_of(place, needed(place, "major", value)?)?;
    let minor = u32_of(place, needed(place, "minor", value)?)?;
    let patch = u32_of(place, needed(place, "patch", value)?)?;
    Ok(PalletInfo {
        index,
        name,
        module_name,
        major,
        minor,
        patch,
    })
}

/// An open query: its number, and the chain that may answer it.
#[tactic(auto, unfolding(crate::specs::Entries::query, crate::specs::Forms::fields, crate::specs::Forms::required_field))]
pub fn query_of(place: Place, value: &Value) -> Result<(u64, ChainId), Stop>
    ensures { Answers result (query place (view value.now)) }
{
    check_fields(place, &["id", "from"], value)?;
    let id = whole_of(place, needed(place, "id", value)?)?;
    let from = chain_of(place, needed(place, "from", value)?)?;
    Ok((id, from))
}
