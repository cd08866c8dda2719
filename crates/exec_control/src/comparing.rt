//! What the expectations compare. Nothing here takes memory.
ghost use Rattle.std.specs.Prelude.{◌≡◌, ◌==◌, true, Some, find};
ghost use Rattle.std.specs.Option.{option_copied};
ghost use Rattle.trust_tables.specs.Chains.{path_of_site};
ghost use Rattle.std.specs.Str.{bytes_eq};
ghost use Rattle.xcm_format.specs.Parts.{FitsError, failure, bytes};
ghost use Rattle.exec_rules.specs.Origins as origins;
ghost use Rattle.exec_rules.specs.Expectations as expectations;

use exec_base::Registers;
use locations::{Junction, Location};
use operands::{ErrorBytes, LongBytes, MaybeError, PalletInfo, XcmError};
use trust_tables::Site;

/// Whether two origins are the same, both empty or both the same location.
pub(crate) fn same_origin(a: &Option<Location>, b: &Option<Location>) -> bool
    ensures { result ≡ origins.same_origin a.now b.now }
{
    match (a, b) {
        (None, None) => true,
        (Some(a), Some(b)) => a == b,
        _ => false,
    }
}

/// Whether the origin register holds for whom the run began.
pub(crate) fn is_original(r: &Registers) -> bool
    ensures { result ≡ origins.same_origin r.now.origin (Some r.now.original) }
{
    match &r.origin {
        Some(who) => *who == r.original,
        None => false,
    }
}

/// For the prover alone: the code of a Trap fits.
fn fits(error: &XcmError)
    ensures { FitsError error.now }
{
    if let XcmError::Trap(code) = error {
        let _code = *code;
    }
}

/// Whether two errors are one and the same.
fn is_same_error(a: &XcmError, b: &XcmError) -> bool
    ensures told { result ≡ true → a.now ≡ b.now }
    ensures same { a.now ≡ b.now → result ≡ true }
    ensures fits { FitsError a.now × FitsError b.now }
{
    // For the prover alone: the code of a Trap fits.
    fits(a);
    fits(b);
    a == b
}

/// Whether two failures have one spelling.
fn is_same_failure(a: &(u32, XcmError), b: &(u32, XcmError)) -> bool
    ensures { result ≡ bytes_eq (failure a.now) (failure b.now) }
{
    let is_same = is_same_error(&a.1, &b.1);
    a.0 == b.0 && is_same
}

/// Whether two error registers have one spelling.
pub(crate) fn same_failure(a: &Option<(u32, XcmError)>, b: &Option<(u32, XcmError)>) -> bool
    ensures { result ≡ expectations.same_failure a.now b.now }
{
    match (a, b) {
        (None, None) => true,
        (Some(a), Some(b)) => is_same_failure(a, b),
        _ => false,
    }
}

/// Whether the bytes of two errors have one spelling.
fn same_bytes(a: &ErrorBytes, b: &ErrorBytes) -> bool
    ensures { result ≡ bytes_eq (bytes a.now) (bytes b.now) }
{
    a.items() == b.items()
}

/// Whether two statuses have one spelling.
pub(crate) fn same_status(a: &MaybeError, b: &MaybeError) -> bool
    ensures { result ≡ expectations.same_status a.now b.now }
{
    match (a, b) {
        (MaybeError::Success, MaybeError::Success) => true,
        (MaybeError::Error(a), MaybeError::Error(b)) => same_bytes(a, b),
        (MaybeError::TruncatedError(a), MaybeError::TruncatedError(b)) => same_bytes(a, b),
        _ => false,
    }
}

/// Whether a junction is the first of the chain's path.
pub(crate) fn is_own_network(site: &Site, junction: &Junction) -> bool
    ensures { result ≡ origins.starts_with (path_of_site site.now) junction.now }
{
    let path = site.path();
    match path.items() {
        [] => false,
        [first, ..] => junction.cmp(first).is_eq(),
    }
}

/// The first pallet of an index.
pub(crate) fn pallet_at(pallets: &[PalletInfo], index: u32) -> Option<&PalletInfo>
    ensures { option_copied result ≡ find (λ info. info.index == index) pallets.now }
{
    pallets.iter().find(|info| info.index == index)
}

/// Whether a pallet has these names.
pub(crate) fn has_names(info: &PalletInfo, name: &LongBytes, module_name: &LongBytes) -> bool
    ensures { result ≡ expectations.has_names info.now name.now module_name.now }
{
    info.name.items() == name.items() && info.module_name.items() == module_name.items()
}

/// Whether a pallet has this major version, and at least this minor one.
pub(crate) fn has_version(info: &PalletInfo, major: u32, least_minor: u32) -> bool
    ensures { result ≡ expectations.has_version info.now major least_minor }
{
    info.major == major && info.minor >= least_minor
}
