//! Laws of a chain, as the contracts of functions that do little or nothing.
ghost use Rattle.std.specs.Prelude.{◌≡◌, List};
ghost use Rattle.std.specs.Option.{option_map};
ghost use Rattle.locations.specs.declared.relative.Location.{Location};
ghost use Rattle.asset_lists.specs.declared.units.Asset.{Asset};
ghost use Rattle.asset_bundles.specs.Bundles.{Bundle};
ghost use Rattle.transactors.specs.Moves as moves;
ghost use Rattle.transactors.specs.Moves.{withdraw_fault, deposit_fault, transfer_fault};
ghost use Rattle.trust_tables.specs.Accounts.{account_of};
ghost use Rattle.exec_base.specs.Part.{ChainPart, accounts_of};
ghost use Rattle.exec_base.specs.Host.{withdraw_refusal, deposit_refusal, transfer_refusal, given, deposited, transferred};
ghost use Rattle.chain_state.specs.Transacting.{error_of, handled_rows, kept_floors};

use transactors::law_of_kinds_covering_rows;

/// A host refuses a move just where its chain's transactors do, and an accepted move leaves what they leave. The
/// transactors handle the chain's rows, and leave each account what is locked on it.
pub fn law_of_transactors()
    ensures withdraw { (p : ChainPart) (list : List Asset) (who : Location)
        → withdraw_refusal p list who
        ≡ option_map error_of (withdraw_fault (handled_rows p) (kept_floors p)
        (accounts_of p) list (account_of who p.site)) }
    ensures deposit { (p : ChainPart) (goods : Bundle) (who : Location)
        → deposit_refusal p goods who
        ≡ option_map error_of (deposit_fault (handled_rows p) (accounts_of p) goods
        (account_of who p.site)) }
    ensures transfer { (p : ChainPart) (list : List Asset) (from to : Location)
        → transfer_refusal p list from to
        ≡ option_map error_of
        (transfer_fault (handled_rows p) (kept_floors p) (accounts_of p) list
        (account_of from p.site) (account_of to p.site)) }
    ensures withdrawn { (p : ChainPart) (list : List Asset) (who : Location)
        → given p list who
        ≡ record p {
          held = (moves.after_withdrawal list (account_of who p.site)
              (accounts_of p)).held;
        } }
    ensures deposited { (p : ChainPart) (goods : Bundle) (who : Location)
        → deposited p goods who
        ≡ record p {
          held = (moves.after_deposit goods (account_of who p.site)
              (accounts_of p)).held;
        } }
    ensures transferred { (p : ChainPart) (list : List Asset) (from to : Location)
        → transferred p list from to
        ≡ record p {
          held = (moves.after_transfer list (account_of from p.site)
              (account_of to p.site) (accounts_of p)).held;
        } }
{
    law_of_kinds_covering_rows();
}
