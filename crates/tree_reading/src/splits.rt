//! Texts cut into parts.

ghost use Rattle.std.specs.Prelude.{◌≡◌, ◌≢◌, ◌++◌, ◌∷◌, List, ℕ, IsTrue, IsFalse, MatchOption};
ghost use Rattle.tree_reading.specs.Rows.{IsSolid, IsDotless};

/// What follows a text at the front of another.
pub(crate) fn after<'a>(text: &'a str, front: &str) -> Option<&'a str>
    ensures { MatchOption result ((rest : List ℕ) → text.now ≢ front.now ++ rest)
        (λ x. text.now ≡ front.now ++ x.now) }
{
    text.strip_prefix(front)
}

/// What is before the first space, and after it.
pub(crate) fn at_space(text: &str) -> Option<(&str, &str)>
    ensures { (one rest : List ℕ) → IsSolid one → text.now ≡ one ++ 32 ∷ rest
        → MatchOption result ⊥ (λ x. (x.0.now ≡ one) × (x.1.now ≡ rest)) }
{
    text.split_once(' ')
}

/// Whether the text is this name.
pub(crate) fn is_text(text: &str, name: &str) -> bool
    ensures same { IsTrue result → text.now ≡ name.now }
    ensures other { IsFalse result → text.now ≢ name.now }
{
    text == name
}

/// What is before the first dot, and after it.
pub(crate) fn at_dot(text: &str) -> Option<(&str, &str)>
    ensures { (one rest : List ℕ) → IsDotless one → text.now ≡ one ++ 46 ∷ rest
        → MatchOption result ⊥ (λ x. (x.0.now ≡ one) × (x.1.now ≡ rest)) }
{
    text.split_once('.')
}

/// What is before the first space, or all.
pub(crate) fn word_of(text: &str) -> &str
    ensures { IsSolid text.now → result.now ≡ text.now }
{
    match text.split_once(' ') {
        Some((word, _rest)) => word,
        None => text,
    }
}

/// What is before the first dot, or all.
pub(crate) fn part_of(text: &str) -> &str
    ensures { IsDotless text.now → result.now ≡ text.now }
{
    match text.split_once('.') {
        Some((part, _rest)) => part,
        None => text,
    }
}
