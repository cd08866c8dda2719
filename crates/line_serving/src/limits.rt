//! The limits of an input, in bytes.

ghost use Rattle.std.specs.Prelude.{◌≡◌, ◌+◌, ◌^◌, ◌<◌, ◌≤◌, ℕ, List, ◌∷◌, ◌++◌, length, false, IsTrue};
ghost use Rattle.input_lines.specs.Lines.{lines_of, HasNoFeed};
ghost use Rattle.line_serving.specs.Replies.{fits_limits, max_input, max_line};

use input_lines::without_feed;

/// The most bytes of an input.
const MAX_INPUT: u64 = 67_108_864;

/// The most bytes of a line, its line feed left out.
const MAX_LINE: usize = 262_144;

/// The most bytes that are read at once.
pub(crate) const PIECE: usize = 65_536;

/// Whether a line is within its limit of 262,144 bytes, its line feed left out, and the input up to its end within 67,108,864, of which so
/// many come before it.
pub fn fits_limits(taken: u64, line: &[u8]) -> bool
    requires { taken + length line.now < 2 ^ 64 }
    ensures { result ≡ fits_limits taken line.now }
{
    without_feed(line).len() <= MAX_LINE && taken + line.len() as u64 <= MAX_INPUT
}

/// Whether the line that begins with these bytes doesn't fit the limits, whatever comes.
pub fn passes_limits(taken: u64, begun: &[u8]) -> bool
    requires within { taken ≤ max_input }
    requires open { HasNoFeed begun.now }
    requires few { length begun.now < 2 ^ 40 }
    ensures over { IsTrue result → (more : List ℕ) → (tail : List ℕ) × (lines : List (List ℕ))
        × (lines_of (begun.now ++ more) ≡ (begun.now ++ tail) ∷ lines)
        × (fits_limits taken (begun.now ++ tail) ≡ false) }
    ensures short { result ≡ false → length begun.now ≤ max_line }
    ensures total { result ≡ false → taken + length begun.now ≤ max_input }
{
    begun.len() > MAX_LINE || taken + begun.len() as u64 > MAX_INPUT
}
