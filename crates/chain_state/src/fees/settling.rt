//! Paid fees that go to the fee account.
ghost use Rattle.std.specs.Prelude.{◌≡◌, None, OnOk, OnErr};
ghost use Rattle.asset_bundles.specs.Bundles.{bundle_of, IsHolding};
ghost use Rattle.asset_bundles.specs.Books.{AreListed};
ghost use Rattle.ledgers.specs.Ledgers.{Deposited, barred};
ghost use Rattle.exec_base.specs.Answers.{AnswersWithinMemory};
ghost use Rattle.exec_base.specs.Host.{settled};
ghost use Rattle.chain_state.specs.PartOf.{part_of};

use crate::ChainState;
use crate::fees::fee_excess::book_all;
use asset_bundles::{AssetBundle, law_of_bundles};
use asset_lists::Asset;
use ledgers::Ledger;
use std::alloc::AllocError;
use std::mem::swap;

/// Makes assets in an account, which can take them in.
fn deposit_into(ledger: &mut Ledger, who: &[u8; 32], coins: Vec<Asset>) -> Result<(), AllocError>
    requires holding { IsHolding coins.items }
    requires listed { AreListed ledger.old.listed (bundle_of coins.items) }
    requires free { barred ledger.old.held who.now coins.items ≡ None }
    ensures deposited { OnOk result (ledger.new
        ≡ Deposited who.now (bundle_of coins.items) ledger.old) }
    ensures kept { OnErr result (ledger.new ≡ ledger.old) }
{
    // For the prover alone: the coins are the goods of their bundle.
    law_of_bundles();
    let goods = AssetBundle::of_list(coins);
    match ledger.deposit_checked(who, goods) {
        Ok(()) => Ok(()),
        Err(goods) => {
            goods.melt();
            Err(AllocError)
        }
    }
}

impl ChainState {
    /// Puts what was paid, to the trader and for deliveries, into the fee account. What would pass 2^128-1 there is booked as saturated,
    /// and told at once. An `Err` is out of memory: then all that was paid stays where it is.
    pub(crate) fn settle(&mut self) -> Result<(), AllocError>
        ensures step { AnswersWithinMemory tt (settled (part_of self.old)) (part_of self.old) result
            (part_of self.new) }
    {
        let (coins, above) = self.shares()?;
        let mut lines = self.above_lines(above.as_slice())?;
        self.events.reserve(lines.len())?;
        self.spare.forget();
        deposit_into(&mut self.ledger, &self.settings.fee_account, coins)?;
        swap(&mut self.trader, &mut self.spare);
        self.fees.clear();
        book_all(&mut self.book, above.as_slice());
        match self.events.append(&mut lines) {
            Ok(()) => Ok(()),
            Err(_) => unreachable!(),
        }
    }
}
