//! Numbers in decimal.

ghost use Rattle.std.specs.Prelude.{◌≡◌};
ghost use Rattle.input_lines.specs.Numbers.{read_number};

/// The number below 2^32 that the text is, which has no leading zeros.
pub(crate) fn read_number(text: &[u8]) -> Option<u32>
    ensures { result ≡ read_number text.now }
{
    if text.is_empty() {
        return None;
    }
    if text[0] == b'+' {
        return None;
    }
    if text[0] == b'0' && text.len() > 1 {
        return None;
    }
    match str::from_utf8(text) {
        Ok(digits) => digits.parse::<u32>().ok(),
        Err(_) => None,
    }
}
