//! Amounts that aren't 0.
ghost use Rattle.std.specs.Prelude.{◌≡◌, ◌<◌};

use std::marker::Model;

/// An amount above 0, in an asset's smallest unit. Contracts see it as its number.
#[derive(Clone, Copy, Debug, PartialEq, Eq)]
pub struct PositiveAmount {
    amount: u128,
}

impl Model for PositiveAmount {
    ghost use Rattle.std.specs.Prelude.{ℕ, ◌<◌};

    ghost Value = { ℕ };

    ghost view = { λ a. a.amount };

    ghost invariant = { λ a. 0 < a.amount };

    ghost inverse = { λ n. record { amount = n } };
}

impl PositiveAmount {
    /// The amount, which isn't 0.
    pub fn new(amount: u128) -> PositiveAmount
        requires { 0 < amount }
        ensures { result ≡ amount }
    {
        PositiveAmount { amount }
    }

    /// The amount as a number.
    pub fn get(self) -> u128
        ensures same { result ≡ self }
        ensures positive { 0 < result }
    {
        self.amount
    }
}
