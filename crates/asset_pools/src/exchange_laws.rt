//! What holds of exchanges with a pool. Each function has an empty body, and its contract is the law.
ghost use Rattle.std.specs.Prelude.{◌≡◌, ℕ, ◌+◌, ◌-◌, ◌*◌, ◌^◌, ◌<◌, ◌≤◌, Bool, nat_lt, if◌then◌else◌, List, Some, None};
ghost use Rattle.asset_pools.specs.declared.deal.Deal.{Deal};
ghost use Rattle.asset_pools.specs.Pools.{out, best_out, least_in, IsLeast, deal_at};
ghost use Rattle.asset_pools.specs.Trading.{Reserves, AreUsable, product_of, Request, reserves_after_all};

/// Some amount pays for whatever is less than the reserve, so there is a least one. It is the answer just where the reserve with it stays
/// below 2^58.
pub fn law_of_least_amounts()
    ensures there_is { (x y g w : ℕ) → 1 ≤ g → 0 < x → w < y → (a : ℕ) × IsLeast x y g w a }
    ensures is_found { (x y g w a : ℕ) → IsLeast x y g w a → 0 < x → 0 < w → w < y → y < 2 ^ 58
        → least_in x y g w ≡ (if nat_lt (x + a) (2 ^ 58) then Some a else None) }
    ensures is_least { (x y g w a : ℕ) → least_in x y g w ≡ Some a → IsLeast x y g w a }
    ensures is_taken { (x y g w a : ℕ) → least_in x y g w ≡ Some a
        → (o : ℕ) × (best_out x y g a ≡ Some o) × (w ≤ o) }
{}

/// No exchange lowers the product of a pool's two reserves, and no list of exchanges in either direction does.
pub fn law_of_products_that_never_fall()
    ensures best_out { (x y g a o : ℕ) → g ≤ 1000 → best_out x y g a ≡ Some o
        → x * y ≤ (x + a) * (y - o) }
    ensures least_in { (x y g w a : ℕ) → g ≤ 1000 → least_in x y g w ≡ Some a
        → x * y ≤ (x + a) * (y - w) }
    ensures deal_at { (x y g h w : ℕ) (maximal : Bool) (d : Deal) → g ≤ 1000
        → deal_at x y g h w maximal ≡ Some d
        → x * y ≤ (x + d.to_pool) * (y - d.to_holding) }
    ensures lists { (g : ℕ) → g ≤ 1000 → (qs : List Request) (r : Reserves)
        → product_of r ≤ product_of (reserves_after_all g qs r) }
{}

/// Exchanges never empty a pool, nor bring a reserve to its end.
pub fn law_of_usable_reserves()
    ensures below { (x y g a : ℕ) → 0 < x → 0 < y → out x y g a < y }
    ensures lists { (g : ℕ) (qs : List Request) (r : Reserves) → AreUsable r
        → AreUsable (reserves_after_all g qs r) }
{}

/// For more a pool gives no less, and for more it wants no less.
pub fn law_of_no_less_for_more()
    ensures gives { (x y g a b o p : ℕ) → best_out x y g a ≡ Some o → best_out x y g b ≡ Some p
        → a ≤ b → o ≤ p }
    ensures costs { (x y g v w a b : ℕ) → least_in x y g v ≡ Some a → least_in x y g w ≡ Some b
        → v ≤ w → a ≤ b }
{}

/// Who gives back no more than he got gets no more than he gave.
pub fn law_of_round_trips()
    ensures { (x y g h w f v : ℕ) (m n : Bool) (d e : Deal) → g ≤ 1000
        → deal_at x y g h w m ≡ Some d
        → deal_at (y - d.to_holding) (x + d.to_pool) g f v n ≡ Some e → e.to_pool ≤ d.to_holding
        → e.to_holding ≤ d.to_pool }
{}
