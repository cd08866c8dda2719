//! What moves assets in and out of accounts.
use crate::MoveFault;
use asset_lists::Asset;
use ledgers::Ledger;
use locations::Location;

/// What moves assets of some of a chain's rows in and out of the accounts of locations. A check is made of a location, or of the account
/// that `account` answers where that was looked up before.
/// Source: xcm-executor's asset transactors.
pub trait Transactor {
    ghost use Rattle.std.specs.Prelude.{◌≡◌, List};
    ghost use Rattle.trust_tables.specs.declared.chains.Site.{Site};
    ghost use Rattle.trust_tables.specs.declared.rows.AssetRow.{AssetRow};
    ghost use Rattle.trust_tables.specs.Accounts.{account_of};
    ghost use Rattle.transactors.specs.Floors.{UnitFloors};
    ghost use Rattle.transactors.specs.Checks.{accepted, check_in, check_out};

    /// Where the chain is.
    ghost site: { Self → Site };

    /// The rows that are handled.
    ghost rows: { Self → List AssetRow };

    /// How much of each unit each account must keep.
    ghost floors: { Self → UnitFloors };

    /// Whether all parts of it are of one chain, and have the same floors.
    ghost agrees: { Self → Type 0 };

    /// The account that the location has on the chain.
    fn account(&self, who: &Location) -> Option<[u8; 32]>
        requires agrees { agrees self.now }
        ensures account { result ≡ account_of who.now (site self.now) };

    /// Whether a deposit of that one asset alone into the location's account would be taken. It takes no memory.
    fn check_in(&self, ledger: &Ledger, a: &Asset, who: &Location) -> Result<(), MoveFault>
        requires agrees { agrees self.now }
        ensures checked { result ≡ accepted (check_in (rows self.now) ledger.now.held
            (account_of who.now (site self.now)) a.now) }
    {
        self.check_account_in(ledger, a, self.account(who))
    }

    /// Whether a withdrawal of that one asset alone from the location's account would be made: the account must have
    /// the amount and its floor together. It takes no memory.
    fn check_out(&self, ledger: &Ledger, a: &Asset, who: &Location) -> Result<(), MoveFault>
        requires agrees { agrees self.now }
        ensures checked { result ≡ accepted (check_out (rows self.now) (floors self.now)
            ledger.now.held (account_of who.now (site self.now)) a.now) }
    {
        self.check_account_out(ledger, a, self.account(who))
    }

    /// Whether a deposit of that one asset alone into the account would be taken; `None` is a location without
    /// account. It takes no memory.
    fn check_account_in(
        &self,
        ledger: &Ledger,
        a: &Asset,
        account: Option<[u8; 32]>,
    ) -> Result<(), MoveFault>
        requires agrees { agrees self.now }
        ensures checked { result
            ≡ accepted (check_in (rows self.now) ledger.now.held account a.now) };

    /// Whether a withdrawal of that one asset alone from the account would be made: the account must have the amount
    /// and its floor together; `None` is a location without account. It takes no memory.
    fn check_account_out(
        &self,
        ledger: &Ledger,
        a: &Asset,
        account: Option<[u8; 32]>,
    ) -> Result<(), MoveFault>
        requires agrees { agrees self.now }
        ensures checked { result
            ≡ accepted (check_out (rows self.now) (floors self.now) ledger.now.held account a.now) };
}
