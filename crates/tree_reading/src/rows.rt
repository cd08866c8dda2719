//! The rows of a tree: how far each is indented, and its words.

ghost use Rattle.std.specs.Prelude.{◌≡◌, ◌≢◌, ◌<◌, ◌++◌, ◌∷◌, ◌==◌, [], List, ℕ, true, false, length, position, IfSome, OnOk, MatchOption, MatchResult};
ghost use Rattle.std.specs.List.{list_all};
ghost use Rattle.message_text.specs.Lines.{indent, line};
ghost use Rattle.tree_reading.specs.Rows.{is_visible, IsWords, IsOutside};

use crate::expected::{Expected, TreeFault};
use crate::splits::after;

/// Where the first line feed is.
fn feed_at(text: &[u8]) -> Option<usize>
    ensures { result ≡ position (λ b. b == 10) text.now }
{
    text.iter().position(|byte| *byte == b'\n')
}

/// The first row without its line feed, and what follows it.
fn first_row(text: &[u8]) -> Option<(&[u8], &[u8])>
    ensures cut { IfSome result (λ x. text.now ≡ x.0.now ++ 10 ∷ x.1.now) }
    ensures shorter { IfSome result (λ x. length x.1.now < length text.now) }
    ensures found { (row rest : List ℕ) → list_all is_visible row ≡ true
        → text.now ≡ row ++ 10 ∷ rest
        → MatchOption result ⊥ (λ x. (x.0.now ≡ row) × (x.1.now ≡ rest)) }
{
    let at = feed_at(text)?;
    Some((&text[..at], &text[at + 1..]))
}

/// A row as a text, where it is one.
fn as_text(row: &[u8]) -> Option<&str>
    ensures { list_all is_visible row.now ≡ true → MatchOption result ⊥ (λ x. x.now ≡ row.now) }
{
    match str::from_utf8(row) {
        Ok(text) => Some(text),
        Err(_) => None,
    }
}

/// Whether the text begins with a space.
fn is_spaced(text: &str) -> bool
    ensures { (words : List ℕ) → IsWords words → text.now ≡ words → result ≡ false }
{
    text.starts_with(' ')
}

/// The words of a row that is indented by so many levels, of two spaces each.
fn words_at(row: &str, level: usize) -> Option<&str>
    ensures { (words : List ℕ) → IsWords words → row.now ≡ indent level ++ words
        → MatchOption result ⊥ (λ x. x.now ≡ words) }
{
    if level == 0 {
        return if is_spaced(row) { None } else { Some(row) };
    }
    words_at(after(row, "  ")?, level - 1)
}

/// Whether a row is indented by fewer levels.
fn is_above(row: &str, level: usize) -> bool
    ensures above { (lower : ℕ) (words : List ℕ) → lower < level → IsWords words
        → row.now ≡ indent lower ++ words → result ≡ true }
    ensures here { (words : List ℕ) → row.now ≡ indent level ++ words → result ≡ false }
{
    if level == 0 {
        return false;
    }
    match after(row, "  ") {
        Some(rest) => is_above(rest, level - 1),
        None => true,
    }
}

/// The lines of a tree that are still to be read, and how many were.
#[derive(Clone, Copy, Debug)]
pub(crate) struct Rows<'a> {
    pub(crate) rest: &'a [u8],
    pub(crate) read: usize,
}

impl<'a> Rows<'a> {
    /// The words of the next row, which is to be indented by so many levels.
    pub(crate) fn take(&mut self, level: usize, expected: Expected) -> Result<&'a str, TreeFault>
        ensures found { (words rest : List ℕ) → IsWords words
            → self.old.rest.now ≡ line level words ++ rest
            → MatchResult result (λ x. (x.now ≡ words) × (self.new.rest.now ≡ rest)) (λ _. ⊥) }
        ensures shorter { OnOk result (length self.new.rest.now < length self.old.rest.now) }
    {
        let Some((bytes, rest)) = first_row(self.rest) else {
            return Err(self.missing(expected));
        };
        let Some(row) = as_text(bytes) else {
            return Err(self.missing(Expected::Same));
        };
        let Some(words) = words_at(row, level) else {
            return Err(self.missing(expected));
        };
        self.rest = rest;
        self.read = self.read.saturating_add(1);
        Ok(words)
    }

    /// The row that was read last should have been this.
    pub(crate) fn wrong(&self, expected: Expected) -> TreeFault {
        TreeFault::Row(self.read.saturating_sub(1), expected)
    }

    /// The row that comes next should be this.
    pub(crate) fn missing(&self, expected: Expected) -> TreeFault {
        TreeFault::Row(self.read, expected)
    }

    /// Whether a row at this level comes before one that is at a lower, or one that is no text, which isn't taken.
    pub(crate) fn has_row(&self, level: usize) -> bool
        ensures found { (words rest : List ℕ) → IsWords words
            → self.now.rest.now ≡ line level words ++ rest → result ≡ true }
        ensures ended { IsOutside level self.now.rest.now → result ≡ false }
    {
        let Some((bytes, _rest)) = first_row(self.rest) else {
            return false;
        };
        let Some(row) = as_text(bytes) else {
            return true;
        };
        if is_above(row, level) {
            return false;
        }
        match words_at(row, level) {
            Some(_words) => true,
            None => self.has_later_row(level),
        }
    }

    /// As `has_row`, where the next row is at a higher level.
    fn has_later_row(&self, level: usize) -> bool {
        let mut rest = self.rest;
        while let Some((bytes, later)) = first_row(rest) {
            if let Some(row) = as_text(bytes) {
                if is_above(row, level) {
                    return false;
                }
                if words_at(row, level).is_some() {
                    return true;
                }
            }
            rest = later;
        }
        false
    }

    /// Whether every row was read.
    pub(crate) fn is_at_end(&self) -> bool
        ensures { self.now.rest.now ≡ [] → result ≡ true }
    {
        self.rest.is_empty()
    }
}
