//! The laws of the spellings: a value has one spelling, and no spelling is a proper prefix of another of its type. And of the readers:
//! each takes what is spelled so, whatever follows it, and nothing else.

ghost use Rattle.std.specs.Prelude.{ℕ, ◌<◌, ◌^◌, IfSome, ⊤};
ghost use Rattle.scale_codec.specs.Spelling.{HasOneSpelling, IsPrefixFree, optional};
ghost use Rattle.scale_codec.specs.Reading.{Reads, optional_at};
ghost use Rattle.location_wire.specs.Spelling.{location, FitsLocation};
ghost use Rattle.location_wire.specs.Reading.{location_at};
ghost use Rattle.operands.specs.declared.version.Version.{Version};
ghost use Rattle.operands.specs.declared.query.Response.{Response};
ghost use Rattle.xcm_format.specs.Parts.{weight, FitsWeight, weight_limit, FitsLimit, origin_kind, xcm_error, FitsError, failure, FitsFailure, bytes, FitsBytes, maybe_error, FitsMaybeError, pallet_info, FitsPallet, query_info, FitsInfo, response, FitsResponse};
ghost use Rattle.xcm_format.specs.Reading.{weight_at, weight_limit_at, origin_kind_at, error_at, failure_at, bytes_at, maybe_error_at, pallet_info_at, query_info_at, response_at};
ghost use Rattle.xcm_format.specs.Writable.{IsResponseNamed};

/// Each part has at most one spelling, a response in each version: by definition, since a spelling is a function of the value.
pub fn law_of_one_spelling()
    ensures weight { HasOneSpelling weight FitsWeight }
    ensures weight_limit { HasOneSpelling weight_limit FitsLimit }
    ensures origin_kind { HasOneSpelling origin_kind (λ _. ⊤) }
    ensures error { HasOneSpelling xcm_error FitsError }
    ensures failure { HasOneSpelling failure FitsFailure }
    ensures optional_failure { HasOneSpelling (optional failure) (λ o. IfSome o FitsFailure) }
    ensures optional_location { HasOneSpelling (optional location) (λ o. IfSome o FitsLocation) }
    ensures bytes { (most : ℕ) → most < 2 ^ 32 → HasOneSpelling bytes (FitsBytes most) }
    ensures maybe_error { HasOneSpelling maybe_error FitsMaybeError }
    ensures pallet_info { HasOneSpelling pallet_info FitsPallet }
    ensures query_info { HasOneSpelling query_info FitsInfo }
    ensures response { (v : Version) → HasOneSpelling (response v) (FitsResponse v) }
{}

/// No spelling of a part is a proper prefix of another of its type, for a response in a version.
pub fn law_of_no_prefix()
    ensures weight { IsPrefixFree weight FitsWeight }
    ensures weight_limit { IsPrefixFree weight_limit FitsLimit }
    ensures origin_kind { IsPrefixFree origin_kind (λ _. ⊤) }
    ensures error { IsPrefixFree xcm_error FitsError }
    ensures failure { IsPrefixFree failure FitsFailure }
    ensures optional_failure { IsPrefixFree (optional failure) (λ o. IfSome o FitsFailure) }
    ensures optional_location { IsPrefixFree (optional location) (λ o. IfSome o FitsLocation) }
    ensures bytes { (most : ℕ) → most < 2 ^ 32 → IsPrefixFree bytes (FitsBytes most) }
    ensures maybe_error { IsPrefixFree maybe_error FitsMaybeError }
    ensures pallet_info { IsPrefixFree pallet_info FitsPallet }
    ensures query_info { IsPrefixFree query_info FitsInfo }
    ensures response { (v : Version) → IsPrefixFree (response v) (FitsResponse v) }
{}

/// The readers take the spellings, whatever follows them, and nothing else.
pub fn law_of_readers()
    ensures weight { Reads weight FitsWeight weight_at }
    ensures weight_limit { Reads weight_limit FitsLimit weight_limit_at }
    ensures origin_kind { Reads origin_kind (λ _. ⊤) origin_kind_at }
    ensures error { Reads xcm_error FitsError error_at }
    ensures failure { Reads failure FitsFailure failure_at }
    ensures optional_failure { Reads (optional failure)
        (λ o. IfSome o FitsFailure) (optional_at failure_at) }
    ensures optional_location { Reads (optional location)
        (λ o. IfSome o FitsLocation) (optional_at location_at) }
    ensures bytes { (most : ℕ) → most < 2 ^ 32 → Reads bytes (FitsBytes most) (bytes_at most) }
    ensures maybe_error { Reads maybe_error FitsMaybeError maybe_error_at }
    ensures pallet_info { Reads pallet_info FitsPallet pallet_info_at }
    ensures query_info { Reads query_info FitsInfo query_info_at }
    ensures response { (v : Version) → Reads (response v) (FitsResponse v) (response_at v) }
{}

/// A response that has a spelling in a version can be written in it, and so one that is read in a version.
pub fn law_of_writable_operands()
    ensures { (v : Version) (answer : Response) → FitsResponse v answer → IsResponseNamed v answer }
{}
