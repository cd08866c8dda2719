//! The laws of amounts by rows. Each function has an empty body, and its contract is the law.

ghost use Rattle.std.specs.Prelude.{◌≡◌, ◌≤◌, ◌∷◌, [], ℕ, Bool, List, Some, IsFalse, slice_get};
ghost use Rattle.amounts.specs.Amounts.{amount, total};
ghost use Rattle.asset_lists.specs.Units.{Unit, unit_of, amount_of};
ghost use Rattle.asset_lists.specs.declared.units.Asset.{Asset};
ghost use Rattle.trust_tables.specs.declared.rows.AssetRow.{AssetRow};
ghost use Rattle.ledgers.specs.Ledgers.{Holder, Held, Accounts, Transferred};
ghost use Rattle.call_dispatch.specs.declared.end.CallEnd.TheVariants.{Error};
ghost use Rattle.call_dispatch.specs.Spelling.{AnyCall};
ghost use Rattle.call_dispatch.specs.Shifts.{RowAmounts, Floors, is_listed_row, shifted};
ghost use Rattle.row_ledger.specs.RowAccounts.{is_fungible_row, fungible_rows, row_of_unit, row_amounts, held_aside, with_row_amounts};
ghost use Rattle.row_ledger.specs.Calls.{call_end, held_called, IsHeldInPart};
ghost use Rattle.row_ledger.specs.AccountLaws.{moved_between};

/// What is held is what is held of fungible rows and all else, and is known by both.
pub fn law_of_rows_held()
    ensures there { (rows : List AssetRow) (row : ℕ)
        → is_listed_row (fungible_rows rows) row ≡ is_fungible_row (slice_get rows row) }
    ensures again { (rows : List AssetRow) (held : Held)
        → with_row_amounts rows held (row_amounts rows held) ≡ held }
    ensures known { (rows : List AssetRow) (held now : Held) (m : RowAmounts)
        → held_aside rows now ≡ held_aside rows held → row_amounts rows now ≡ m
        → now ≡ with_row_amounts rows held m }
{}

/// An amount of the unit of a row, moved between accounts, is that amount of the row.
pub fn law_of_moved_rows()
    ensures has { (rows : List AssetRow) (u : Unit) (row : ℕ) → row_of_unit rows u ≡ Some row
        → (held : Held) (who : List ℕ)
        → amount (row_amounts rows held) (who, row) ≡ amount held (who, u) }
    ensures moved { (rows : List AssetRow) (u : Unit) (row : ℕ) → row_of_unit rows u ≡ Some row
        → (held : Held) (from to : List ℕ) (n : ℕ) → n ≤ amount held (from, u)
        → row_amounts rows (moved_between held u from to n)
        ≡ shifted (row_amounts rows held) row from to n }
    ensures aside { (rows : List AssetRow) (u : Unit) (row : ℕ) → row_of_unit rows u ≡ Some row
        → (held : Held) (from to : List ℕ) (n : ℕ)
        → held_aside rows (moved_between held u from to n) ≡ held_aside rows held }
    ensures transferred { (ledger : Accounts) (from to : List ℕ) (a : Asset)
        → (Transferred from to (a ∷ []) ledger).held
        ≡ moved_between ledger.held (unit_of a) from to (amount_of a) }
{}

/// A call leaves each sum over all accounts as it is, and lowers no account but the caller's; so does the part of it that was done where memory was
/// refused. It leaves each account what must stay there of the unit's row. A call that fails changes nothing.
pub fn law_of_calls_of_accounts()
    ensures sums { (rows : List AssetRow) (held : Held) (floors : Floors) (who : List ℕ)
        (c : AnyCall) (t : Holder → Bool)
        → ((a b : List ℕ) (u : Unit) → t (a, u) ≡ t (b, u))
        → total t (held_called rows held floors who c) ≡ total t held }
    ensures others { (rows : List AssetRow) (held : Held) (floors : Floors) (who : List ℕ)
        (c : AnyCall) (t : Holder → Bool)
        → ((u : Unit) → IsFalse (t (who, u)))
        → total t held ≤ total t (held_called rows held floors who c) }
    ensures floors { (rows : List AssetRow) (held : Held) (floors : Floors) (who : List ℕ)
        (c : AnyCall) (one : List ℕ) (u : Unit) (n : ℕ)
        → ((row : ℕ) → row_of_unit rows u ≡ Some row → floors (one, row) ≡ n)
        → n ≤ amount held (one, u) → n ≤ amount (held_called rows held floors who c) (one, u) }
    ensures error { (rows : List AssetRow) (held : Held) (floors : Floors) (who : List ℕ)
        (c : AnyCall) (code : ℕ)
        → call_end rows held floors who c ≡ Error code → held_called rows held floors who c ≡ held }
    ensures sums_in_part { (rows : List AssetRow) (held : Held) (floors : Floors) (who : List ℕ)
        (c : AnyCall) (now : Held) → IsHeldInPart rows held floors who c now
        → (t : Holder → Bool) → ((a b : List ℕ) (u : Unit) → t (a, u) ≡ t (b, u))
        → total t now ≡ total t held }
    ensures others_in_part { (rows : List AssetRow) (held : Held) (floors : Floors) (who : List ℕ)
        (c : AnyCall) (now : Held) → IsHeldInPart rows held floors who c now
        → (t : Holder → Bool) → ((u : Unit) → IsFalse (t (who, u))) → total t held ≤ total t now }
{}
