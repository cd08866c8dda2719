//! The laws of spellings and readers: no spelling is a proper prefix of another of its type, and each reader takes what is spelled
//! so, whatever follows it, and nothing else.

ghost use Rattle.std.specs.Prelude.{◌≡◌, ◌≤◌, ◌<◌, ◌^◌, ℕ, List, Bool, Option, IsTrue, length};
ghost use Rattle.scale_codec.specs.Spelling.{byte, fixed, compact, flag, measured, HasOneSpelling, IsPrefixFree};
ghost use Rattle.scale_codec.specs.Reading.{Reads, u8_at, fixed_at, below_at, take_at, flag_at};

/// A value has one spelling, by definition: a spelling is a function of its value.
pub fn law_of_one_spelling<T>()
    ensures { (spelling : T → List ℕ) (fits : T → Bool)
        → HasOneSpelling spelling (λ x. IsTrue (fits x)) }
{}

/// Of a type that has a reader with both laws, no spelling is a proper prefix of another.
pub fn law_of_no_prefix<T>()
    ensures { (spelling : T → List ℕ) (fits : T → Bool) (at : List ℕ → Option (T × List ℕ))
        → Reads spelling (λ x. IsTrue (fits x)) at → IsPrefixFree spelling (λ x. IsTrue (fits x)) }
{}

/// No spelling of a number, a flag or bytes is a proper prefix of another of its kind.
pub fn law_of_no_prefix_of_numbers()
    ensures byte { IsPrefixFree byte (λ n. n < 2 ^ 8) }
    ensures fixed { (k : ℕ) → IsPrefixFree (fixed k) (λ n. n < 256 ^ k) }
    ensures compact { IsPrefixFree compact (λ n. n < 2 ^ 128) }
    ensures flag { IsPrefixFree flag (λ _. Unit {0}) }
    ensures taken { (n : ℕ) → IsPrefixFree {X = List ℕ} (λ x. x) (λ x. length x ≡ n) }
    ensures measured { IsPrefixFree (measured compact) (λ x. length x < 2 ^ 32) }
{}

/// Each reader of numbers, flags and bytes takes the spellings of its kind, and nothing else.
pub fn law_of_readers()
    ensures byte { Reads byte (λ n. n < 2 ^ 8) u8_at }
    ensures fixed { (k : ℕ) → Reads (fixed k) (λ n. n < 256 ^ k) (fixed_at k) }
    ensures compact { (limit : ℕ)
        → limit ≤ 2 ^ 128 → Reads compact (λ n. n < limit) (below_at limit) }
    ensures flag { Reads flag (λ _. Unit {0}) flag_at }
    ensures taken { (n : ℕ) → Reads {X = List ℕ} (λ x. x) (λ x. length x ≡ n) (take_at n) }
{}
