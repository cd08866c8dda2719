//! An account as a key of rows.
ghost use Rattle.std.specs.Prelude.{◌≡◌, ◌+◌, ◌<◌, ◌≤◌, refl, take, drop, length};
ghost use Rattle.std.specs.List.{AllByRecursion};
ghost use Rattle.std.specs.Slice.Scan.{big_endian};
ghost use Rattle.std.specs.Ordering.{eq_by_cmp, as_partial_cmp, is_lt, is_ne};
ghost use Rattle.std.specs.Cmp.{partial_equiv_from_equiv, eq_by_cmp_equiv, po};
ghost use Rattle.ledgers.specs.Ledgers.{account_cmp};
ghost use Rattle.ledgers.specs.AccountKeys.{accounts_total};

use std::cmp::Ordering;
use std::marker::Model;

/// The 32 bytes of an account as a key of sorted maps: in the order of the bytes, and compared eight at a time.
#[derive(Drop)]
pub struct AccountKey {
    bytes: [u8; 32],
}

impl Model for AccountKey {
    ghost use Rattle.std.specs.Prelude.{ℕ, List};

    ghost Value = { List ℕ };

    ghost view = { λ k. k.bytes };
}

impl AccountKey {
    /// The key of an account.
    pub fn of(who: &[u8; 32]) -> AccountKey
        ensures { result ≡ who.now }
    {
        AccountKey { bytes: *who }
    }

    /// Whether it is this account's.
    pub(crate) fn is(&self, who: &[u8; 32]) -> bool
        ensures { result ≡ eq_by_cmp account_cmp who.now self.now }
    {
        order(who, &self.bytes).is_eq()
    }

    /// Whether it is a later account's.
    pub(crate) fn is_after(&self, who: &[u8; 32]) -> bool
        ensures { result ≡ is_lt (account_cmp who.now self.now) }
    {
        order(who, &self.bytes).is_lt()
    }

    /// The account's bytes.
    pub(crate) fn account(&self) -> [u8; 32]
        ensures { result ≡ self.now }
    {
        self.bytes
    }
}

impl PartialEq for AccountKey {
    ghost eq = { eq_by_cmp account_cmp };

    ghost laws = { partial_equiv_from_equiv (eq_by_cmp_equiv accounts_total) };

    fn eq(&self, other: &AccountKey) -> bool {
        self.cmp(other).is_eq()
    }
}

impl Eq for AccountKey {
    ghost laws = { eq_by_cmp_equiv accounts_total };
}

impl PartialOrd for AccountKey {
    ghost partial_cmp = { as_partial_cmp account_cmp };

    ghost laws = { po accounts_total (λ _ _. refl) };

    fn partial_cmp(&self, other: &AccountKey) -> Option<Ordering> {
        Some(self.cmp(other))
    }
}

impl Ord for AccountKey {
    ghost cmp = { account_cmp };

    ghost total = { accounts_total };

    ghost matches_partial_cmp = { λ _ _. refl };

    ghost matches_eq = { λ _ _. refl };

    fn cmp(&self, other: &AccountKey) -> Ordering {
        order(&self.bytes, &other.bytes)
    }
}

/// How two accounts are ordered by their bytes.
fn order(a: &[u8; 32], b: &[u8; 32]) -> Ordering
    ensures { result ≡ account_cmp a.now b.now }
{
    if are_apart(a, b, 0) {
        return part_order(a, b, 0);
    }
    if are_apart(a, b, 8) {
        return part_order(a, b, 8);
    }
    if are_apart(a, b, 16) {
        return part_order(a, b, 16);
    }
    if are_apart(a, b, 24) {
        return part_order(a, b, 24);
    }
    Ordering::Equal
}

/// Whether the eight bytes from an index on differ.
fn are_apart(a: &[u8; 32], b: &[u8; 32], at: usize) -> bool
    requires { at + 8 ≤ 32 }
    ensures { result ≡ is_ne (account_cmp (take 8 (drop at a.now)) (take 8 (drop at b.now))) }
{
    word(a, at) != word(b, at)
}

/// How the eight bytes from an index on are ordered.
fn part_order(a: &[u8; 32], b: &[u8; 32], at: usize) -> Ordering
    requires { at + 8 ≤ 32 }
    ensures { result ≡ account_cmp (take 8 (drop at a.now)) (take 8 (drop at b.now)) }
{
    word(a, at).cmp(&word(b, at))
}

/// The number of the eight bytes from an index on, the high one first.
fn word(bytes: &[u8; 32], at: usize) -> u64
    requires { at + 8 ≤ 32 }
    ensures value { result ≡ big_endian 0 (take 8 (drop at bytes.now)) }
    ensures eight { length (take 8 (drop at bytes.now)) ≡ 8 }
    ensures bytes { AllByRecursion (λ b. b < 256) (take 8 (drop at bytes.now)) }
{
    u64::from_be_bytes([
        bytes[at],
        bytes[at + 1],
        bytes[at + 2],
        bytes[at + 3],
        bytes[at + 4],
        bytes[at + 5],
        bytes[at + 6],
        bytes[at + 7],
    ])
}
