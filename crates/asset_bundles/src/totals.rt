//! Sums of burns.
ghost use Rattle.std.specs.Prelude.{◌≡◌, ◌+◌, min};
ghost use Rattle.asset_bundles.specs.Totals.{total_value};
ghost use Rattle.asset_bundles.specs.Books.{most_burned};

use std::cmp::Ordering;

/// A sum of burns, in the asset's smallest unit or in instances: `high * 2^128 + low`. It saturates at
/// 2^160-1.
#[derive(Clone, Copy, Debug)]
pub struct Total {
    /// How often 2^128 is in it.
    pub high: u32,
    /// The rest, below 2^128.
    pub low: u128,
}

impl Total {
    /// Nothing.
    pub const ZERO: Total = Total { high: 0, low: 0 };

    /// So much more; it saturates at 2^160-1.
    pub fn plus(self, amount: u128) -> Total
        ensures { total_value result ≡ min (total_value self + amount) most_burned }
    {
        if amount <= u128::MAX - self.low {
            return Total {
                high: self.high,
                low: self.low + amount,
            };
        }
        if self.high == u32::MAX {
            return Total {
                high: u32::MAX,
                low: u128::MAX,
            };
        }
        Total {
            high: self.high + 1,
            low: amount - (u128::MAX - self.low) - 1,
        }
    }

    /// The sum of both; it saturates at 2^160-1.
    pub fn sum(self, other: Total) -> Total
        ensures { total_value result ≡ min (total_value self + total_value other) most_burned }
    {
        let Total { high, low } = self.plus(other.low);
        if high > u32::MAX - other.high {
            return Total {
                high: u32::MAX,
                low: u128::MAX,
            };
        }
        Total {
            high: high + other.high,
            low,
        }
    }
}

impl PartialEq for Total {
    ghost use Rattle.std.specs.Cmp.{partial_equiv_from_equiv, eq_by_cmp_equiv};
    ghost use Rattle.std.specs.Ordering.{eq_by_cmp};
    ghost use Rattle.asset_bundles.specs.Totals.{total_cmp};
    ghost use Rattle.asset_bundles.specs.TotalLaws.{total_total};

    ghost eq = { eq_by_cmp total_cmp };

    ghost laws = { partial_equiv_from_equiv (eq_by_cmp_equiv total_total) };

    fn eq(&self, other: &Total) -> bool {
        self.cmp(other).is_eq()
    }
}

impl Eq for Total {
    ghost use Rattle.std.specs.Cmp.{eq_by_cmp_equiv};
    ghost use Rattle.asset_bundles.specs.TotalLaws.{total_total};

    ghost laws = { eq_by_cmp_equiv total_total };
}

impl PartialOrd for Total {
    ghost use Rattle.std.specs.Prelude.{refl};
    ghost use Rattle.std.specs.Cmp.{po};
    ghost use Rattle.std.specs.Ordering.{as_partial_cmp};
    ghost use Rattle.asset_bundles.specs.Totals.{total_cmp};
    ghost use Rattle.asset_bundles.specs.TotalLaws.{total_total};

    ghost partial_cmp = { as_partial_cmp total_cmp };

    ghost laws = { po total_total (λ _ _. refl) };

    fn partial_cmp(&self, other: &Total) -> Option<Ordering> {
        Some(self.cmp(other))
    }
}

/// As the numbers that they are.
impl Ord for Total {
    ghost use Rattle.std.specs.Prelude.{refl};
    ghost use Rattle.asset_bundles.specs.Totals.{total_cmp};
    ghost use Rattle.asset_bundles.specs.TotalLaws.{total_total};

    ghost cmp = { total_cmp };

    ghost total = { total_total };

    ghost matches_partial_cmp = { λ _ _. refl };

    ghost matches_eq = { λ _ _. refl };

    fn cmp(&self, other: &Total) -> Ordering {
        let Total { high, low } = *self;
        let Total {
            high: other_high,
            low: other_low,
        } = *other;
        if high < other_high {
            return Ordering::Less;
        }
        if high > other_high {
            return Ordering::Greater;
        }
        low.cmp(&other_low)
    }
}
