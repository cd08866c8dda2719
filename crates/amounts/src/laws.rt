//! The laws of amounts. Each holds for keys of which only equal ones tie.
ghost use Rattle.std.specs.Prelude.{◌≡◌, ℕ, Bool, not, ◌&&◌, ◌+◌, ◌-◌, ◌<◌, ◌≤◌, if◌then◌else◌, min, IsTrue, List, ◌++◌, Option, unwrap_or};
ghost use Rattle.std.specs.FinMap.{IsAntisymmetric};
ghost use Rattle.std.specs.List.Sorted.{IsStrictlySortedBy};
ghost use Rattle.std.specs.Map.{keys_of, lookup};
ghost use Rattle.std.specs.Ordering.{eq_by_cmp};
ghost use Rattle.amounts.specs.Rows.{amount_if, sum_where, IsPositive};
ghost use Rattle.amounts.specs.Amounts.{Amounts, amount, rows, total, empty, single, with_amount, plus, minus, plus_all, from_rows, merge, difference, lesser, restriction, map_keys, IsWithin};
ghost use Rattle.amounts.specs.Entries.{from_entries};

/// Two maps with the same amount at each key are one map.
pub fn law_of_equal_maps<K: Ord>()
    requires { IsAntisymmetric K.cmp }
    ensures { (m n : Amounts K.cmp) → ((k : K) → amount m k ≡ amount n k) → m ≡ n }
{}

/// What each operation has at a key.
pub fn law_of_amounts<K: Ord>()
    requires { IsAntisymmetric K.cmp }
    ensures nothing { (q : K) → amount (empty {R = K.cmp}) q ≡ 0 }
    ensures one { (k : K) (a : ℕ) (q : K)
        → amount (single {R = K.cmp} k a) q ≡ amount_if (eq_by_cmp K.cmp q k) a }
    ensures written { (m : Amounts K.cmp) (k : K) (a : ℕ) (q : K)
        → amount (with_amount m k a) q ≡ (if eq_by_cmp K.cmp q k then a else amount m q) }
    ensures more { (m : Amounts K.cmp) (k : K) (a : ℕ) (q : K)
        → amount (plus m k a) q ≡ amount m q + amount_if (eq_by_cmp K.cmp q k) a }
    ensures less { (m : Amounts K.cmp) (k : K) (a : ℕ) (q : K)
        → amount (minus m k a) q ≡ amount m q - amount_if (eq_by_cmp K.cmp q k) a }
    ensures sum_of_both { (m n : Amounts K.cmp) (q : K)
        → amount (merge m n) q ≡ amount m q + amount n q }
    ensures rest { (m n : Amounts K.cmp) (q : K)
        → amount (difference m n) q ≡ amount m q - amount n q }
    ensures least { (m n : Amounts K.cmp) (q : K)
        → amount (lesser m n) q ≡ min (amount m q) (amount n q) }
    ensures chosen { (p : K → Bool) (m : Amounts K.cmp) (q : K)
        → amount (restriction p m) q ≡ amount_if (p q) (amount m q) }
{}

/// What the totals of each operation are, over the keys that pass a test.
pub fn law_of_totals<K: Ord>()
    requires { IsAntisymmetric K.cmp }
    ensures at_a_key { (m : Amounts K.cmp) (k : K) → amount m k ≡ total (eq_by_cmp K.cmp k) m }
    ensures one { (p : K → Bool) (k : K) (a : ℕ)
        → total p (single {R = K.cmp} k a) ≡ amount_if (p k) a }
    ensures written { (p : K → Bool) (m : Amounts K.cmp) (k : K) (a : ℕ)
        → total p (with_amount m k a) + amount_if (p k) (amount m k)
        ≡ total p m + amount_if (p k) a }
    ensures more { (p : K → Bool) (m : Amounts K.cmp) (k : K) (a : ℕ)
        → total p (plus m k a) ≡ total p m + amount_if (p k) a }
    ensures less { (p : K → Bool) (m : Amounts K.cmp) (k : K) (a : ℕ) → a ≤ amount m k
        → total p (minus m k a) + amount_if (p k) a ≡ total p m }
    ensures sum_of_both { (p : K → Bool) (m n : Amounts K.cmp)
        → total p (merge m n) ≡ total p m + total p n }
    ensures rest { (p : K → Bool) (m n : Amounts K.cmp)
        → IsWithin n m → total p (difference m n) + total p n ≡ total p m }
    ensures chosen { (p q : K → Bool) (m : Amounts K.cmp)
        → total p (restriction q m) ≡ total (λ k. q k && p k) m }
    ensures alike { (p q : K → Bool) (m : Amounts K.cmp)
        → ((k : K) → 0 < amount m k → p k ≡ q k) → total p m ≡ total q m }
    ensures passes { (p : K → Bool) (m : Amounts K.cmp)
        → 0 < total p m → (k : K) × IsTrue (p k) × (0 < amount m k) }
    ensures wider { (p q : K → Bool) (m : Amounts K.cmp)
        → ((k : K) → IsTrue (p k) → IsTrue (q k)) → total p m ≤ total q m }
    ensures covered { (p : K → Bool) (m : Amounts K.cmp) (k : K)
        → IsTrue (p k) → amount m k ≤ total p m }
    ensures split { (p q : K → Bool) (m : Amounts K.cmp)
        → total p m ≡ total (λ k. q k && p k) m + total (λ k. not (q k) && p k) m }
{}

/// Maps may be merged in any order.
pub fn law_of_merging<K: Ord>()
    requires { IsAntisymmetric K.cmp }
    ensures nothing { (m : Amounts K.cmp) → merge m empty ≡ m }
    ensures commutes { (m n : Amounts K.cmp) → merge m n ≡ merge n m }
    ensures associates { (l m n : Amounts K.cmp) → merge (merge l m) n ≡ merge l (merge m n) }
{}

/// What is taken out of a map and put back gives the map.
pub fn law_of_parts_put_back<K: Ord>()
    requires { IsAntisymmetric K.cmp }
    ensures put_back { (m n : Amounts K.cmp) → IsWithin n m → merge (difference m n) n ≡ m }
    ensures taken_again { (m n : Amounts K.cmp) → difference (merge m n) n ≡ m }
    ensures halves { (p : K → Bool) (m : Amounts K.cmp)
        → merge (restriction p m) (restriction (λ k. not (p k)) m) ≡ m }
{}

/// A map and its rows tell the same, and rows may be added up before they are added.
pub fn law_of_maps_as_rows<K: Ord>()
    requires { IsAntisymmetric K.cmp }
    ensures back { (m : Amounts K.cmp) → from_rows (rows m) ≡ m }
    ensures rising { (m : Amounts K.cmp) → IsStrictlySortedBy K.cmp (keys_of (rows m)) }
    ensures positive { (m : Amounts K.cmp) → IsPositive (rows m) }
    ensures joined { (xs ys : List (K × ℕ))
        → from_rows {R = K.cmp} (xs ++ ys) ≡ merge (from_rows xs) (from_rows ys) }
    ensures added { (m : Amounts K.cmp) (es : List (K × ℕ))
        → plus_all m es ≡ merge m (from_rows es) }
{}

/// What a sorted map of entries holds.
pub fn law_of_entries<K: Ord>()
    requires { IsAntisymmetric K.cmp }
    ensures at_a_key { (es : List (K × ℕ)) (q : K)
        → amount (from_entries {R = K.cmp} es) q ≡ unwrap_or (lookup (eq_by_cmp K.cmp q) es) 0 }
    ensures changed { (es fs : List (K × ℕ)) (k : K) (v : Option ℕ)
        → ((q : K) → lookup (eq_by_cmp K.cmp q) fs
        ≡ (if eq_by_cmp K.cmp q k then v else lookup (eq_by_cmp K.cmp q) es))
        → from_entries {R = K.cmp} fs ≡ with_amount (from_entries es) k (unwrap_or v 0) }
    ensures rows_are { (es : List (K × ℕ)) → IsStrictlySortedBy K.cmp (keys_of es) → IsPositive es
        → rows (from_entries {R = K.cmp} es) ≡ es }
    ensures total_is { (p : K → Bool) (es : List (K × ℕ)) → IsStrictlySortedBy K.cmp (keys_of es)
        → total p (from_entries {R = K.cmp} es) ≡ sum_where p es }
{}

/// Amounts under other keys have the totals that they had under their own.
pub fn law_of_totals_under_new_keys<J: Ord, K: Ord>()
    requires { IsAntisymmetric K.cmp }
    ensures { (p : K → Bool) (f : J → K) (m : Amounts J.cmp)
        → total p (map_keys {S = J.cmp} {R = K.cmp} f m) ≡ total (λ j. p (f j)) m }
{}

/// An amount that goes from a key of one map to a key of another keeps the sum of both, where the two tests count the keys alike.
pub fn law_of_a_move<J: Ord, K: Ord>()
    requires from_exact { IsAntisymmetric J.cmp }
    requires to_exact { IsAntisymmetric K.cmp }
    ensures { (p : J → Bool) (q : K → Bool) (from : Amounts J.cmp) (to : Amounts K.cmp) (j : J)
        (k : K) (a : ℕ)
        → a ≤ amount from j → p j ≡ q k
        → total p (minus from j a) + total q (plus to k a) ≡ total p from + total q to }
{}

/// All amounts of a map that go from their keys in one map to their keys in another keep the sum of both.
pub fn law_of_sums_kept_by_moves<J: Ord, K: Ord, L: Ord>()
    requires from_exact { IsAntisymmetric J.cmp }
    requires to_exact { IsAntisymmetric K.cmp }
    ensures { (p : J → Bool) (q : K → Bool) (f : L → J) (g : L → K) (from : Amounts J.cmp)
        (to : Amounts K.cmp) (moved : Amounts L.cmp)
        → IsWithin (map_keys f moved) from → ((l : L) → p (f l) ≡ q (g l))
        → total p (difference from (map_keys f moved)) + total q (merge to (map_keys g moved))
        ≡ total p from + total q to }
{}
