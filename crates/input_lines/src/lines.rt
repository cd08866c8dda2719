//! The lines of an input.

ghost use Rattle.std.specs.Prelude.{◌≡◌, ◌+◌, ◌<◌, ◌≤◌, ℕ, List, [], ◌∷◌, ◌++◌, length, take, drop, true, IfSome, IfNone};
ghost use Rattle.input_lines.specs.Lines.{HasNoFeed, lines_of, text_of, ends_network, ends_with, without_feed};

use memchr::memchr;

/// The length in bytes of the first line with its line feed, or `None` where there is no line feed.
pub fn line_len(bytes: &[u8]) -> Option<usize>
    ensures none { IfNone result (0 < length bytes.now → lines_of bytes.now ≡ bytes.now ∷ []) }
    ensures open { IfNone result (HasNoFeed bytes.now) }
    ensures some { IfSome result (λ n. 0 < n) }
    ensures bound { IfSome result (λ n. n ≤ length bytes.now) }
    ensures feed { IfSome result (λ n. ends_with 10 (take n bytes.now) ≡ true) }
    ensures line { IfSome result (λ n. (more : List ℕ) → lines_of (bytes.now ++ more)
        ≡ take n bytes.now ∷ lines_of (drop n bytes.now ++ more)) }
{
    match memchr(b'\n', bytes) {
        Some(at) => Some(at + 1),
        None => None,
    }
}

/// Whether the last byte is `last`.
fn ends_with(bytes: &[u8], last: u8) -> bool
    ensures { result ≡ ends_with last bytes.now }
{
    !bytes.is_empty() && bytes[bytes.len() - 1] == last
}

/// The line without its line feed, where it has one.
pub fn without_feed(line: &[u8]) -> &[u8]
    ensures { result.now ≡ without_feed line.now }
{
    if !ends_with(line, b'\n') {
        return line;
    }
    &line[..line.len() - 1]
}

/// What a line says: its line feed is dropped, and one carriage return before that.
#[tactic(auto, unfolding(crate::specs::Lines::text_of))]
pub fn text_of(line: &[u8]) -> &[u8]
    ensures { result.now ≡ text_of line.now }
{
    if !ends_with(line, b'\n') {
        return line;
    }
    let text = &line[..line.len() - 1];
    if !ends_with(text, b'\r') {
        return text;
    }
    &text[..text.len() - 1]
}

/// Whether a line ends the network part: whether it says `---`.
pub fn ends_network(line: &[u8]) -> bool
    ensures { result ≡ ends_network line.now }
{
    text_of(line) == b"---".as_slice()
}
