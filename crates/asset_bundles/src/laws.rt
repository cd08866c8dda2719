//! The laws of bundles and of the book. Each function has an empty body, and its contract is a law.
ghost use Rattle.std.specs.Prelude.{◌≡◌, ℕ, Bool, List, ◌+◌, ◌-◌, ◌<◌, ◌≤◌, min, take, drop, IsTrue, IsSomeAnd};
ghost use Rattle.std.specs.List.{list_all, list_any};
ghost use Rattle.std.specs.Ordering.{eq_by_cmp};
ghost use Rattle.amounts.specs.Rows.{amount_if};
ghost use Rattle.amounts.specs.Amounts.{amount, total, empty, single, merge, difference, IsWithin};
ghost use Rattle.locations.specs.declared.grammar.Junction.{Junction};
ghost use Rattle.locations.specs.declared.relative.Location.{Location};
ghost use Rattle.asset_lists.specs.declared.units.Asset.{Asset};
ghost use Rattle.asset_lists.specs.declared.filters.Filter.{Filter};
ghost use Rattle.asset_lists.specs.Units.{Unit, unit_of, unit_cmp};
ghost use Rattle.asset_lists.specs.Lists.{IsAssetList};
ghost use Rattle.asset_lists.specs.Listed.{Listed, listed_of, lists};
ghost use Rattle.asset_lists.specs.Moves.{all_reanchored, occurrences, IsReanchoredList};
ghost use Rattle.asset_bundles.specs.declared.book.Cause.{Cause};
ghost use Rattle.asset_bundles.specs.Bundles.{Bundle, bundle_of, held_assets, IsHolding, IsGoods};
ghost use Rattle.asset_bundles.specs.Filters.{Taken, Left};
ghost use Rattle.asset_bundles.specs.Joins.{most_of, Joined, Excess, IsWithinMost};
ghost use Rattle.asset_bundles.specs.Landing.{renamed, Renamed, StayApart};
ghost use Rattle.asset_bundles.specs.Books.{Burn, Burns, Book, most_burned, Booked, AreTotals, AreListed, burned_for, given_up, is_unit_where, is_burn_where};

/// A bundle and the list of its assets in holding order tell the same. Each unit is in the list at most
/// once, and it has each unit that the bundle holds; 20 assets or fewer, from any index on, are a list that
/// an instruction may speak of.
pub fn law_of_bundles()
    ensures list { (xs : List Asset) → IsHolding xs → held_assets (bundle_of xs) ≡ xs }
    ensures goods { (xs : List Asset) → IsHolding xs → IsGoods (bundle_of xs) }
    ensures once { (xs : List Asset) → IsHolding xs → (u : Unit) → occurrences u xs ≤ 1 }
    ensures listed_units { (xs : List Asset) (u : Unit) → 0 < amount (bundle_of xs) u
        → IsTrue (list_any (λ a. eq_by_cmp unit_cmp u (unit_of a)) xs) }
    ensures pieces { (xs : List Asset) (m n : ℕ)
        → IsHolding xs → n ≤ 20 → IsAssetList (take n (drop m xs)) }
    ensures from_lists { (xs : List Asset) → IsAssetList xs → IsHolding xs }
{}

/// What a filter takes and what it leaves are the whole, and it takes no more than is held.
pub fn law_of_filters()
    ensures within { (filter : Filter) (b : Bundle) → IsWithin (Taken filter b) b }
    ensures whole { (filter : Filter) (b : Bundle) → merge (Left filter b) (Taken filter b) ≡ b }
{}

/// What is kept of two joined bundles, and what is given up, at each unit. Where nothing is above the most
/// that a bundle holds, the join is the sum, nothing is given up, and the book stays as it was.
pub fn law_of_joins()
    ensures kept { (m n : Bundle) (u : Unit)
        → amount (Joined m n) u ≡ min (amount m u + amount n u) (most_of u.1) }
    ensures rest { (m n : Bundle) (u : Unit)
        → amount (Excess m n) u ≡ (amount m u + amount n u) - most_of u.1 }
    ensures whole { (m n : Bundle) → merge (Joined m n) (Excess m n) ≡ merge m n }
    ensures sum { (m n : Bundle) → IsWithinMost (merge m n) → Joined m n ≡ merge m n }
    ensures no_excess { (m n : Bundle) → IsWithinMost (merge m n) → Excess m n ≡ empty }
    ensures same_book { (book : Book) (m n : Bundle)
        → IsWithinMost (merge m n) → Booked book (given_up m n) ≡ book }
{}

/// What is taken, left, merged, joined or given up of listed assets is listed, and so is what lands, where
/// the new name of each unit is.
pub fn law_of_listed_assets()
    ensures within { (listed : List Listed) (b c : Bundle)
        → IsWithin c b → AreListed listed b → AreListed listed c }
    ensures taken { (listed : List Listed) (filter : Filter) (b : Bundle)
        → AreListed listed b → AreListed listed (Taken filter b) }
    ensures left { (listed : List Listed) (filter : Filter) (b : Bundle)
        → AreListed listed b → AreListed listed (Left filter b) }
    ensures merged { (listed : List Listed) (m n : Bundle)
        → AreListed listed m → AreListed listed n → AreListed listed (merge m n) }
    ensures joined { (listed : List Listed) (m n : Bundle)
        → AreListed listed m → AreListed listed n → AreListed listed (Joined m n) }
    ensures excess { (listed : List Listed) (m n : Bundle)
        → AreListed listed m → AreListed listed n → AreListed listed (Excess m n) }
    ensures no_excess { (listed : List Listed) (m n : Bundle)
        → IsWithinMost (merge m n) → AreListed listed (Excess m n) }
    ensures landed { (listed : List Listed) (target : Location) (context : List Junction)
        (b : Bundle)
        → ((u : Unit) → 0 < amount b u
        → IsTrue (lists listed (listed_of (renamed target context u))))
        → AreListed listed (Renamed target context b) }
    ensures list { (listed : List Listed) (xs : List Asset)
        → IsTrue (list_all (λ a. lists listed (listed_of (unit_of a))) xs)
        → AreListed listed (bundle_of xs) }
{}

/// A list that the target names in full lands as the new list, and its units stay apart.
pub fn law_of_landing()
    ensures landed { (target : Location) (context : List Junction) (xs new : List Asset)
        → IsHolding xs
        → IsSomeAnd (all_reanchored target context xs) (λ all. IsReanchoredList all new)
        → Renamed target context (bundle_of xs) ≡ bundle_of new }
    ensures apart { (target : Location) (context : List Junction) (xs new : List Asset)
        → IsSomeAnd (all_reanchored target context xs) (λ all. IsReanchoredList all new)
        → StayApart target context (bundle_of xs) }
{}

/// Each total rises by what is booked, as far as there is room below 2^160-1, and no other total changes. It
/// makes no difference whether burns are booked at once or one after the other, and no burns change nothing.
pub fn law_of_saturating_burn_totals()
    ensures rises { (book : Book) (more : Burns) (k : Burn)
        → amount (Booked book more).burns k ≡ amount book.burns k
        + min (amount more k) (most_burned - amount book.burns k) }
    ensures again { (book : Book) (m n : Burns)
        → Booked (Booked book m) n ≡ Booked book (merge m n) }
    ensures nothing { (book : Book) → Booked book empty ≡ book }
    ensures below { (book : Book) (more : Burns)
        → AreTotals (merge book.burns more) → (Booked book more).burns ≡ merge book.burns more }
    ensures totals { (book : Book) (more : Burns)
        → AreTotals book.burns → AreTotals (Booked book more).burns }
    ensures saturates { (book : Book) (more : Burns) (k : Burn) → AreTotals book.burns
        → amount (Booked book more).burns k
        ≡ min (amount book.burns k + amount more k) most_burned }
{}

/// Bundles, shipments and burns together keep what they had of the assets that pass a test: when two bundles
/// are joined, when one is burned, or lost as a teleport, when an amount is booked alone (`BurnBook::add`,
/// which gives up so much that was in no bundle), and when a list or a filter takes a part; a landed shipment
/// has its units under their new ids. Burns are counted here without end: `law_of_saturating_burn_totals` says that the book
/// is the same while none of its totals would saturate.
pub fn law_of_conserved_bundles()
    ensures joined { (test : Listed → Bool) (m n : Bundle) (burns : Burns)
        → total (is_unit_where test) (Joined m n)
        + total (is_burn_where test) (merge burns (given_up m n))
        ≡ (total (is_unit_where test) m + total (is_unit_where test) n)
        + total (is_burn_where test) burns }
    ensures joined_units { (p : Unit → Bool) (m n : Bundle)
        → total p (Joined m n) + total p (Excess m n) ≡ total p m + total p n }
    ensures given_up { (test : Listed → Bool) (m n : Bundle)
        → total (is_burn_where test) (given_up m n) ≡ total (is_unit_where test) (Excess m n) }
    ensures burned { (test : Listed → Bool) (cause : Cause) (b : Bundle) (burns : Burns)
        → total (is_burn_where test) (merge burns (burned_for cause b))
        ≡ total (is_unit_where test) b + total (is_burn_where test) burns }
    ensures added { (test : Listed → Bool) (k : Listed) (cause : Cause) (n : ℕ) (burns : Burns)
        → total (is_burn_where test) (merge burns (single (k, cause) n))
        ≡ amount_if (test k) n + total (is_burn_where test) burns }
    ensures cut { (p : Unit → Bool) (b c : Bundle)
        → IsWithin c b → total p (difference b c) + total p c ≡ total p b }
    ensures taken { (p : Unit → Bool) (filter : Filter) (b : Bundle)
        → total p (Left filter b) + total p (Taken filter b) ≡ total p b }
    ensures landed { (p : Unit → Bool) (target : Location) (context : List Junction) (b : Bundle)
        → total p (Renamed target context b) ≡ total (λ u. p (renamed target context u)) b }
{}
