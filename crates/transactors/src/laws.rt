//! Laws of the transactors, as the contracts of functions that do nothing.
ghost use Rattle.std.specs.Prelude.{◌≡◌, ◌++◌, ℕ, List, Option, None, is_some};
ghost use Rattle.asset_lists.specs.declared.units.Asset.{Asset};
ghost use Rattle.asset_lists.specs.declared.units.Kind.{Kind};
ghost use Rattle.asset_bundles.specs.Bundles.{Bundle, IsHolding};
ghost use Rattle.ledgers.specs.Ledgers.{Accounts};
ghost use Rattle.trust_tables.specs.declared.rows.AssetRow.{AssetRow};
ghost use Rattle.trust_tables.specs.Trust.{row_of};
ghost use Rattle.transactors.specs.Floors.{UnitFloors, KeepsFloors};
ghost use Rattle.transactors.specs.Checks.{rows_of_kind};
ghost use Rattle.transactors.specs.Moves.{withdraw_fault, transfer_fault, after_withdrawal, after_deposit, after_transfer};

/// The transactor of fungible assets and then that of instances, over a chain's rows, handle just what the rows list.
pub fn law_of_kinds_covering_rows()
    ensures { (rows : List AssetRow) (a : Asset)
        → is_some (row_of (rows_of_kind Kind.Fungible rows ++ rows_of_kind Kind.Class rows) a)
        ≡ is_some (row_of rows a) }
{}

/// Where each account has its floors, it has them after a list was withdrawn or moved that wasn't refused, and after
/// anything was deposited; also where a location has no account.
pub fn law_of_floors_of_moves()
    ensures withdrawn { (rows : List AssetRow) (floors : UnitFloors)
        (ledger : Accounts) (list : List Asset) (from : Option (List ℕ)) → IsHolding list
        → withdraw_fault rows floors ledger list from ≡ None
        → KeepsFloors floors ledger.held
        → KeepsFloors floors (after_withdrawal list from ledger).held }
    ensures deposited { (floors : UnitFloors)
        (ledger : Accounts) (goods : Bundle) (to : Option (List ℕ))
        → KeepsFloors floors ledger.held
        → KeepsFloors floors (after_deposit goods to ledger).held }
    ensures transferred { (rows : List AssetRow) (floors : UnitFloors)
        (ledger : Accounts) (list : List Asset) (from to : Option (List ℕ)) → IsHolding list
        → transfer_fault rows floors ledger list from to ≡ None
        → KeepsFloors floors ledger.held
        → KeepsFloors floors (after_transfer list from to ledger).held }
{}
