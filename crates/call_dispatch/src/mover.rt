//! What a call moves amounts in.

use crate::ShiftFault;

/// Amounts of accounts, by the number of an asset's row.
pub trait Mover {
    ghost use Rattle.std.specs.Prelude.{◌≡◌, ℕ, List, OnOk};
    ghost use Rattle.call_dispatch.specs.Shifts.{RowAmounts, Floors, shift_fault, shifted, Shifts, IsNumberAt, AreKept};

    /// What each account has of each row.
    ghost amounts: { Self → RowAmounts };

    /// What must stay with an account of a row.
    ghost floors: { Self → Floors };

    /// The rows that are there and fungible.
    ghost rows: { Self → List ℕ };

    /// What else it holds, which no move changes.
    ghost Other: { Type 0 };

    ghost other: { Self → Other };

    /// Moves an amount of a row from one account to another, or refuses it and changes nothing.
    fn shift(
        &mut self,
        row: u32,
        from: &[u8; 32],
        to: &[u8; 32],
        amount: u128,
    ) -> Result<(), ShiftFault>
        ensures step { Shifts
            (shift_fault (amounts self.old) (floors self.old) (rows self.old) row from.now to.now
            amount)
            (shifted (amounts self.old) row from.now to.now amount)
            (amounts self.old) result (amounts self.new) }
        ensures had { OnOk result (IsNumberAt (amounts self.old) (from.now, row)) }
        ensures floors { floors self.new ≡ floors self.old }
        ensures rows { rows self.new ≡ rows self.old }
        ensures other { other self.new ≡ other self.old };

    /// A floor is at most its amount.
    ghost kept: { (m : Self) → AreKept (amounts m) (floors m) };
}
