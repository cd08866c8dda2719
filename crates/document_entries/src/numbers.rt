//! Numbers.
ghost use Rattle.std.specs.Prelude.{◌≡◌, ◌<◌, ◌≤◌, ◌^◌, IfOk};
ghost use Rattle.serde_json.specs.View.{view};
ghost use Rattle.document_entries.specs.Answers.{Answers};
ghost use Rattle.std.specs.List.{list_all};
ghost use Rattle.std.specs.Char.{is_ascii_digit};
ghost use Rattle.document_entries.specs.Forms.{whole_number, number_within, decimal_below, is_decimal, is_plain};

use crate::{NetworkFault, Place, Stop, text_of};
use serde_json::Value;

/// A whole number below 2^64.
#[tactic(auto, unfolding(crate::specs::Forms::whole_number))]
pub(crate) fn whole_of(place: Place, value: &Value) -> Result<u64, Stop>
    ensures { Answers result (whole_number place (view value.now)) }
{
    match value.as_u64() {
        Some(number) => Ok(number),
        None => Err(Stop::Fault(NetworkFault::WrongKind(place))),
    }
}

/// A whole number from `low` to `high`.
#[tactic(auto, unfolding(crate::specs::Forms::number_within))]
pub fn number_of(place: Place, low: u32, high: u32, value: &Value) -> Result<u32, Stop>
    ensures form { Answers result (number_within low high place (view value.now)) }
    ensures range { IfOk result (λ n. n ≤ high) }
{
    let number = whole_of(place, value)?;
    if number < u64::from(low) || number > u64::from(high) {
        return Err(Stop::Fault(NetworkFault::BadValue(place)));
    }
    Ok(number as u32)
}

/// Whether all bytes are decimal digits.
fn are_digits(text: &[u8]) -> bool
    ensures { result ≡ list_all is_ascii_digit text.now }
{
    text.iter().all(|digit| digit.is_ascii_digit())
}

/// Whether there is a byte, and no `0` before another.
fn is_plain(text: &[u8]) -> bool
    ensures { result ≡ is_plain text.now }
{
    match text {
        [] => false,
        [_] => true,
        [first, ..] => *first != b'0',
    }
}

#[tactic(auto, using(crate::proofs::Decimals::all_digits))]
/// Whether the text is decimal digits, with no 0 before another.
fn is_decimal(digits: &str) -> bool
    ensures { result ≡ is_decimal digits.now }
{
    are_digits(digits.as_bytes()) && is_plain(digits.as_bytes())
}

/// A number below a limit, as a text of decimal digits without leading zeros.
#[tactic(auto, unfolding(crate::specs::Forms::decimal_below))]
pub(crate) fn decimal_of(place: Place, limit: u128, value: &Value) -> Result<u128, Stop>
    ensures form { Answers result (decimal_below limit place (view value.now)) }
    ensures range { IfOk result (λ n. n < limit) }
{
    let digits = text_of(place, value)?;
    if !is_decimal(digits) {
        return Err(Stop::Fault(NetworkFault::BadValue(place)));
    }
    let Ok(number) = digits.parse::<u128>() else {
        return Err(Stop::Fault(NetworkFault::LimitPassed(place)));
    };
    if number >= limit {
        return Err(Stop::Fault(NetworkFault::LimitPassed(place)));
    }
    Ok(number)
}
