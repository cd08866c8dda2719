//! The laws of calls: how they are spelled, and what they move. Each function has an empty body, and its contract is the law.

ghost use Rattle.std.specs.Prelude.{◌≡◌, ◌≢◌, ◌≤◌, ℕ, List, None, Ok, IsFalse};
ghost use Rattle.amounts.specs.Amounts.{amount};
ghost use Rattle.scale_codec.specs.Spelling.{HasOneSpelling, IsPrefixFree};
ghost use Rattle.scale_codec.specs.Reading.{Reads};
ghost use Rattle.call_dispatch.specs.declared.end.CallEnd.TheVariants.{Error};
ghost use Rattle.call_dispatch.specs.Spelling.{AnyCall, call, FitsCall};
ghost use Rattle.call_dispatch.specs.Reading.{call_at, call_of};
ghost use Rattle.call_dispatch.specs.Shifts.{AccountRow, RowAmounts, Floors, shift_fault, shifted, IsNumberAt, AreKept};
ghost use Rattle.call_dispatch.specs.Dispatches.{dispatch, IsInterrupted, sum_of_row, names_row};

/// The reader takes the spelling of each call, whatever follows it, and nothing else. A call has one spelling, by definition; none is
/// a proper prefix of another; and what is written is read again.
pub fn law_of_spelled_calls()
    ensures reads { Reads call FitsCall call_at }
    ensures one { HasOneSpelling call FitsCall }
    ensures no_prefix { IsPrefixFree call FitsCall }
    ensures again { (c : AnyCall) → FitsCall c → call_of (call c) ≡ Ok c }
{}

/// A call leaves the sum of each row over all accounts as it is. It lowers nothing of another account, nothing below its floor, and
/// leaves rows that it doesn't name. Where it answers an error, it changed nothing.
pub fn law_of_dispatches()
    ensures sums { (m : RowAmounts) (floors : Floors) (rows who : List ℕ) (c : AnyCall) (row : ℕ)
        → sum_of_row (dispatch m floors rows who c).0 row ≡ sum_of_row m row }
    ensures others { (m : RowAmounts) (floors : Floors) (rows who : List ℕ) (c : AnyCall)
        (q : AccountRow)
        → q.0 ≢ who → amount m q ≤ amount (dispatch m floors rows who c).0 q }
    ensures floors { (m : RowAmounts) (floors : Floors) (rows who : List ℕ) (c : AnyCall)
        → AreKept m floors → AreKept (dispatch m floors rows who c).0 floors }
    ensures unnamed { (m : RowAmounts) (floors : Floors) (rows who : List ℕ) (c : AnyCall)
        (q : AccountRow)
        → IsFalse (names_row c q.1) → amount (dispatch m floors rows who c).0 q ≡ amount m q }
    ensures numbers { (m : RowAmounts) (floors : Floors) (rows who : List ℕ) (c : AnyCall)
        → ((k : AccountRow) → IsNumberAt m k) → (k : AccountRow)
        → IsNumberAt (dispatch m floors rows who c).0 k }
    ensures error { (m : RowAmounts) (floors : Floors) (rows who : List ℕ) (c : AnyCall) (code : ℕ)
        → (dispatch m floors rows who c).1 ≡ Error code → (dispatch m floors rows who c).0 ≡ m }
{}

/// The same of the state where memory was refused.
pub fn law_of_interruptions()
    ensures sums { (m now : RowAmounts) (floors : Floors) (rows who : List ℕ) (c : AnyCall)
        → IsInterrupted m floors rows who c now
        → (row : ℕ) → sum_of_row now row ≡ sum_of_row m row }
    ensures others { (m now : RowAmounts) (floors : Floors) (rows who : List ℕ) (c : AnyCall)
        → IsInterrupted m floors rows who c now
        → (q : AccountRow) → q.0 ≢ who → amount m q ≤ amount now q }
    ensures floors { (m now : RowAmounts) (floors : Floors) (rows who : List ℕ) (c : AnyCall)
        → IsInterrupted m floors rows who c now
        → AreKept m floors → AreKept now floors }
    ensures unnamed { (m now : RowAmounts) (floors : Floors) (rows who : List ℕ) (c : AnyCall)
        → IsInterrupted m floors rows who c now
        → (q : AccountRow) → IsFalse (names_row c q.1) → amount now q ≡ amount m q }
    ensures numbers { (m now : RowAmounts) (floors : Floors) (rows who : List ℕ) (c : AnyCall)
        → IsInterrupted m floors rows who c now
        → ((k : AccountRow) → IsNumberAt m k) → (k : AccountRow) → IsNumberAt now k }
{}

/// What was moved can be moved back, which only running out of memory can refuse; once it is moved back, all is as it was.
pub fn law_of_moving_back()
    ensures accepted { (m : RowAmounts) (floors : Floors) (rows : List ℕ) (row : ℕ)
        (from to : List ℕ) (n : ℕ)
        → AreKept m floors → IsNumberAt m (from, row)
        → shift_fault m floors rows row from to n ≡ None
        → shift_fault (shifted m row from to n) floors rows row to from n ≡ None }
    ensures restored { (m : RowAmounts) (floors : Floors) (rows : List ℕ) (row : ℕ)
        (from to : List ℕ) (n : ℕ)
        → shift_fault m floors rows row from to n ≡ None
        → shifted (shifted m row from to n) row to from n ≡ m }
{}
