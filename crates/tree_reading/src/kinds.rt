//! The kinds of what one row says.

ghost use Rattle.std.specs.Prelude.{◌≡◌, ◌++◌, true, List, ℕ, IfOk};
ghost use Rattle.tree_reading.specs.Kinds.{Says};

use crate::assets::{put_asset, put_wild};
use crate::errors::put_failure;
use crate::hexes::{put_hex, put_status, put_topic};
use crate::numbers::{MAX_32, put_flag, put_limit, put_number, put_origin_kind, put_weight};
use crate::pallets::put_pallet;
use crate::places::{put_junction, put_location, put_network, put_path, put_place};
use crate::responses::put_valued;
use operands::Version;
use scale_codec::Out;
use std::alloc::{AllocError, Global};

/// What the words of a row are the text of.
#[derive(Clone, Copy, Debug, PartialEq, Eq)]
pub(crate) enum Words {
    /// An asset.
    Asset,
    /// A wildcard.
    Wild,
    /// A location.
    Location,
    /// A location, or none.
    LocationOrNone,
    /// A path.
    Path,
    /// A junction, as the path that it is alone.
    Junction,
    /// A network, as the junction that names it.
    Network,
    /// A number below 2^32.
    Number32,
    /// A number below 2^64.
    Number64,
    /// A weight.
    Weight,
    /// A limit of weights.
    Limit,
    /// A kind of origin.
    OriginKind,
    /// Bytes, with their number before them.
    Bytes,
    /// 32 bytes.
    Topic,
    /// True or false.
    Flag,
    /// An instruction's index and its error, or none.
    Failure,
    /// How a call ended.
    Status,
    /// A response whose value is on the same row.
    Valued,
    /// A pallet.
    Pallet,
}

/// Appends what a text of this kind says, in the version. False where it is no such text; more may have been appended then. Where it is the text of a
/// value with a spelling, just this spelling is appended.
pub(crate) fn put_words(
    alloc: Global,
    out: &mut Out,
    version: Version,
    kind: Words,
    text: &str,
) -> Result<bool, AllocError>
    ensures { IfOk result (λ done. (bytes : List ℕ) → Says version kind text.now bytes
        → (done ≡ true) × (out.new ≡ out.old ++ bytes)) }
{
    match kind {
        Words::Asset => put_asset(alloc, out, version, text),
        Words::Wild => put_wild(alloc, out, version, text),
        Words::Location => put_location(alloc, out, text),
        Words::LocationOrNone => put_place(alloc, out, text),
        Words::Path => put_path(alloc, out, text),
        Words::Junction => put_junction(alloc, out, text),
        Words::Network => put_network(alloc, out, text),
        Words::Number32 => put_number(out, text, MAX_32),
        Words::Number64 => put_number(out, text, u64::MAX),
        Words::Weight => put_weight(out, text),
        Words::Limit => put_limit(out, text),
        Words::OriginKind => put_origin_kind(out, text),
        Words::Bytes => put_hex(alloc, out, text),
        Words::Topic => put_topic(alloc, out, text),
        Words::Flag => put_flag(out, text),
        Words::Failure => put_failure(out, text),
        Words::Status => put_status(alloc, out, text),
        Words::Valued => put_valued(alloc, out, text),
        Words::Pallet => put_pallet(alloc, out, text),
    }
}
