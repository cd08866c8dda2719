//! Sums of amounts that saturate nowhere.
ghost use Rattle.std.specs.Prelude.{◌≡◌, ◌+◌, ◌-◌, ◌^◌, ◌<◌, ◌≤◌, min, nat_eq, nat_lt, if◌then◌else◌, None, Some};
ghost use Rattle.asset_bundles.specs.Totals.{total_value, wide_value};

use crate::Total;

/// A sum of amounts, `high * 2^128 + low`: wide enough for as many amounts as a slice may have.
#[derive(Clone, Copy, Debug)]
pub struct WideSum {
    /// How often 2^128 is in it.
    pub high: u64,
    /// The rest, below 2^128.
    pub low: u128,
}

impl WideSum {
    /// The sum of nothing.
    pub const ZERO: WideSum = WideSum { high: 0, low: 0 };

    /// So much more.
    pub fn plus(self, amount: u128) -> WideSum
        requires { wide_value self + amount < 2 ^ 192 }
        ensures { wide_value result ≡ wide_value self + amount }
    {
        if amount <= u128::MAX - self.low {
            return WideSum {
                high: self.high,
                low: self.low + amount,
            };
        }
        WideSum {
            high: self.high + 1,
            low: amount - (u128::MAX - self.low) - 1,
        }
    }

    /// So much less.
    pub fn minus(self, amount: u128) -> WideSum
        requires { amount ≤ wide_value self }
        ensures { wide_value result ≡ wide_value self - amount }
    {
        if amount <= self.low {
            return WideSum {
                high: self.high,
                low: self.low - amount,
            };
        }
        WideSum {
            high: self.high - 1,
            low: u128::MAX - (amount - self.low - 1),
        }
    }

    /// Whether it is 0.
    pub fn is_zero(self) -> bool
        ensures { result ≡ nat_eq (wide_value self) 0 }
    {
        self.high == 0 && self.low == 0
    }

    /// Whether it is less than another sum.
    pub fn is_below(self, other: WideSum) -> bool
        ensures { result ≡ nat_lt (wide_value self) (wide_value other) }
    {
        self.high < other.high || (self.high == other.high && self.low < other.low)
    }

    /// What an amount has more than the sum; None where it has less.
    pub fn taken_from(self, amount: u128) -> Option<u128>
        ensures { result ≡ (if nat_lt amount (wide_value self) then None
            else Some (amount - wide_value self)) }
    {
        if self.high > 0 || self.low > amount {
            return None;
        }
        Some(amount - self.low)
    }

    /// The sum as a total, which saturates at 2^160-1 where it would pass it.
    pub fn total(self) -> Total
        ensures { total_value result ≡ min (wide_value self) (2 ^ 160 - 1) }
    {
        if self.high > u64::from(u32::MAX) {
            return Total {
                high: u32::MAX,
                low: u128::MAX,
            };
        }
        Total {
            high: self.high as u32,
            low: self.low,
        }
    }
}
