//! The law of the ledger. The function has an empty body, and its contract is the law.
ghost use Rattle.std.specs.Prelude.{◌≡◌, ℕ, ◌+◌, Bool, List, None};
ghost use Rattle.amounts.specs.Amounts.{amount, total};
ghost use Rattle.asset_lists.specs.declared.units.Asset.{Asset};
ghost use Rattle.asset_lists.specs.Listed.{Listed};
ghost use Rattle.asset_lists.specs.Lists.{IsAssetList};
ghost use Rattle.asset_bundles.specs.Bundles.{Bundle, bundle_of};
ghost use Rattle.ledgers.specs.Ledgers.{Accounts, Holder, IsOther, sum_of, shortage, Withdrawn, Deposited, Transferred};

/// Of all holders that pass a test: a withdrawal lowers what they hold by just what it gives out, a deposit raises it by
/// just what it takes in, and a transfer does both. A transfer keeps the sum of each asset, and no move changes what
/// other accounts hold, or what an account holds of other units.
pub fn law_of_ledgers()
    ensures withdrawn { (ledger : Accounts) (who : List ℕ) (assets : List Asset) (p : Holder → Bool)
        → IsAssetList assets → shortage ledger.held who assets ≡ None
        → total p (Withdrawn who assets ledger).held + total
        (λ unit. p (who, unit)) (bundle_of assets) ≡ total p ledger.held }
    ensures deposited { (ledger : Accounts) (who : List ℕ) (goods : Bundle) (p : Holder → Bool)
        → total p (Deposited who goods ledger).held ≡ total p ledger.held + total
        (λ unit. p (who, unit)) goods }
    ensures transferred { (ledger : Accounts) (from to : List ℕ) (assets : List Asset) (p : Holder
        → Bool) → IsAssetList assets → shortage ledger.held from assets ≡ None
        → total p (Transferred from to assets ledger).held + total
        (λ unit. p (from, unit)) (bundle_of assets) ≡ total p ledger.held + total
        (λ unit. p (to, unit)) (bundle_of assets) }
    ensures sums { (ledger : Accounts) (from to : List ℕ) (assets : List Asset) (asset : Listed)
        → IsAssetList assets → shortage ledger.held from assets ≡ None
        → sum_of asset (Transferred from to assets ledger).held ≡ sum_of asset ledger.held }
    ensures others_withdrawn { (ledger : Accounts) (who : List ℕ) (assets : List Asset)
        (holder : Holder)
        → IsOther who (bundle_of assets) holder
        → amount (Withdrawn who assets ledger).held holder ≡ amount ledger.held holder }
    ensures others_deposited { (ledger : Accounts) (who : List ℕ) (goods : Bundle) (holder : Holder)
        → IsOther who goods holder
        → amount (Deposited who goods ledger).held holder ≡ amount ledger.held holder }
    ensures others_transferred { (ledger : Accounts) (from to : List ℕ) (assets : List Asset)
        (holder : Holder)
        → IsOther from (bundle_of assets) holder → IsOther to (bundle_of assets) holder
        → amount (Transferred from to assets ledger).held holder ≡ amount ledger.held holder }
{}
