//! The values of fields that are on one line.
ghost use Rattle.std.specs.Prelude.{◌≡◌, ◌++◌, IfOk, OnOk, string_bytes};
ghost use Rattle.location_wire.specs.Texts.{hex_text};
ghost use Rattle.asset_wire.specs.Spelling.{instance};
ghost use Rattle.message_text.specs.Words.{flag_text, origin_kind_text, limit_text, status_text, place_text, failure_text, junction_path_text, network_text, id_text, fun_text, asset_text, wild_fun_text};

use asset_lists::{Asset, AssetId, Fun, Instance, WildFun};
use asset_wire::write_instance;
use location_wire::{location_text, path_text, push_location_text};
use locations::{Junction, Junctions, Location, NetworkId};
use operands::{MaybeError, OriginKind, WeightLimit, XcmError};
use scale_codec::Out;
use std::alloc::{AllocError, Global};
use std::fmt::Write;

/// Bytes for the text of most assets.
const ROOM: usize = 96;

/// `true` or `false`.
#[tactic(auto, unfolding(crate::specs::Words::flag_text))]
pub(crate) fn flag_text(flag: bool) -> &'static str
    ensures { result.now ≡ flag_text flag }
{
    if flag { "true" } else { "false" }
}

/// The name of a right with which calls are dispatched.
#[tactic(auto, unfolding(crate::specs::Words::origin_kind_text))]
pub(crate) fn origin_kind_text(kind: OriginKind) -> &'static str
    ensures { result.now ≡ origin_kind_text kind }
{
    match kind {
        OriginKind::Native => "Native",
        OriginKind::SovereignAccount => "SovereignAccount",
        OriginKind::Superuser => "Superuser",
        OriginKind::Xcm => "Xcm",
    }
}

/// The name of what a wildcard means of an id.
#[tactic(auto, unfolding(crate::specs::Words::wild_fun_text))]
pub(crate) fn wild_fun_text(fun: WildFun) -> &'static str
    ensures { result.now ≡ wild_fun_text fun }
{
    match fun {
        WildFun::Fungible => "Fungible",
        WildFun::NonFungible => "NonFungible",
    }
}

/// Bytes in lower-case hex after `0x`. An `Err` is out of memory.
pub fn hex_text(alloc: Global, bytes: &[u8]) -> Result<String, AllocError>
    ensures { IfOk result (λ text. string_bytes text ≡ hex_text bytes.now) }
{
    let digits = hex::encode(alloc, bytes)?;
    let mut text = String::with_capacity(alloc, 2 + digits.len())?;
    text.push_str("0x")?;
    text.push_str(&digits)?;
    Ok(text)
}

/// A limit of weights.
#[tactic(auto, unfolding(crate::specs::Words::limit_text))]
pub(crate) fn limit_text(alloc: Global, limit: WeightLimit) -> Result<String, AllocError>
    ensures { IfOk result (λ text. string_bytes text ≡ limit_text limit) }
{
    match limit {
        WeightLimit::Unlimited => format!(in alloc; "Unlimited"),
        WeightLimit::Limited(weight) => format!(in alloc; "Limited {weight}"),
    }
}

/// How a dispatched call ended.
#[tactic(auto, unfolding(crate::specs::Words::status_text))]
pub(crate) fn status_text(alloc: Global, status: &MaybeError) -> Result<String, AllocError>
    ensures { IfOk result (λ text. string_bytes text ≡ status_text status.now) }
{
    match status {
        MaybeError::Success => format!(in alloc; "Success"),
        MaybeError::Error(bytes) => {
            let digits = hex_text(alloc, bytes.items())?;
            format!(in alloc; "Error {digits}")
        }
        MaybeError::TruncatedError(bytes) => {
            let digits = hex_text(alloc, bytes.items())?;
            format!(in alloc; "TruncatedError {digits}")
        }
    }
}

/// A location, or none.
#[tactic(auto, unfolding(crate::specs::Words::place_text))]
pub(crate) fn place_text(alloc: Global, place: &Option<Location>) -> Result<String, AllocError>
    ensures { IfOk result (λ text. string_bytes text ≡ place_text place.now) }
{
    match place {
        None => format!(in alloc; "none"),
        Some(place) => location_text(alloc, place),
    }
}

/// An instruction's index and its error, or none.
#[tactic(auto, unfolding(crate::specs::Words::failure_text))]
pub(crate) fn failure_text(
    alloc: Global,
    failed: &Option<(u32, XcmError)>,
) -> Result<String, AllocError>
    ensures { IfOk result (λ text. string_bytes text ≡ failure_text failed.now) }
{
    match failed {
        None => format!(in alloc; "none"),
        Some((index, error)) => format!(in alloc; "{index} {error}"),
    }
}

/// A junction.
pub(crate) fn junction_text(alloc: Global, junction: &Junction) -> Result<String, AllocError>
    ensures { IfOk result (λ text. string_bytes text ≡ junction_path_text junction.now) }
{
    let alone = [*junction];
    path_text(alloc, &Junctions::from_few(alone.as_slice()))
}

/// A network, as the junction that names it.
pub(crate) fn network_text(alloc: Global, network: NetworkId) -> Result<String, AllocError>
    ensures { IfOk result (λ text. string_bytes text ≡ network_text network) }
{
    junction_text(alloc, &Junction::GlobalConsensus(network))
}

/// An asset id: its location, or the hex of its bytes.
#[tactic(auto, unfolding(crate::specs::Words::id_text))]
pub(crate) fn id_text(alloc: Global, id: &AssetId) -> Result<String, AllocError>
    ensures { IfOk result (λ text. string_bytes text ≡ id_text id.now) }
{
    match id {
        AssetId::Concrete(place) => location_text(alloc, place),
        AssetId::Abstract(bytes) => hex_text(alloc, bytes.as_slice()),
    }
}

/// The hex of an instance's spelling.
fn instance_text(alloc: Global, which: &Instance) -> Result<String, AllocError>
    ensures { IfOk result (λ text. string_bytes text ≡ hex_text (instance which.now)) }
{
    let mut out = Out::new(alloc);
    write_instance(&mut out, which)?;
    hex_text(alloc, out.bytes())
}

/// Appends an asset id: its location, or the hex of its bytes.
#[tactic(auto, unfolding(crate::specs::Words::id_text))]
fn push_id(alloc: Global, text: &mut String, id: &AssetId) -> Result<(), AllocError>
    ensures { OnOk result (string_bytes text.new ≡ string_bytes text.old ++ id_text id.now) }
{
    match id {
        AssetId::Concrete(place) => push_location_text(alloc, text, place),
        AssetId::Abstract(bytes) => {
            let digits = hex_text(alloc, bytes.as_slice())?;
            text.push_str(&digits)
        }
    }
}

/// Appends the amount in the asset's smallest unit, or the instance.
#[tactic(auto, unfolding(crate::specs::Words::fun_text))]
fn push_fun(alloc: Global, text: &mut String, fun: &Fun) -> Result<(), AllocError>
    ensures { OnOk result (string_bytes text.new ≡ string_bytes text.old ++ fun_text fun.now) }
{
    match fun {
        Fun::Fungible(amount) => text.push_str(itoa::Buffer::new().format(*amount)),
        Fun::NonFungible(which) => {
            let digits = instance_text(alloc, which)?;
            write!(text, "instance {digits}")
        }
    }
}

/// Appends the text of an asset. An `Err` is out of memory.
pub fn push_asset_text(alloc: Global, text: &mut String, asset: &Asset) -> Result<(), AllocError>
    ensures { OnOk result (string_bytes text.new
        ≡ string_bytes text.old ++ asset_text asset.now) }
{
    push_id(alloc, text, &asset.id)?;
    text.push_str(" ")?;
    push_fun(alloc, text, &asset.fun)
}

/// An asset, as `0 1000`: its id, and the amount in its smallest unit, or `instance` and the instance. An `Err` is out of memory.
pub fn asset_text(alloc: Global, asset: &Asset) -> Result<String, AllocError>
    ensures { IfOk result (λ text. string_bytes text ≡ asset_text asset.now) }
{
    let mut text = String::with_capacity(alloc, ROOM)?;
    push_asset_text(alloc, &mut text, asset)?;
    Ok(text)
}
