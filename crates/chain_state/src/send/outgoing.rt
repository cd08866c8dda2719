//! Assets that go into the accounts of other chains, which are told of them.
ghost use Rattle.std.specs.Prelude.{◌≡◌, None, MatchResult};
ghost use Rattle.asset_bundles.specs.Bundles.{held_assets};
ghost use Rattle.exec_base.specs.Answers.{AnswersOrRefuses, TakesGoodsOrRefuses};
ghost use Rattle.exec_base.specs.Host.{seen_from, transfer_out_refusal, transferred_out, deposit_out_refusal, deposited_out};
ghost use Rattle.exec_base.specs.Sending.{listed_refusal, listed_program, number_to, IsForwardable, deposit_program};
ghost use Rattle.chain_state.specs.PartOf.{part_of};
ghost use Rattle.chain_state.specs.Sends.{IsAcceptedByChannel, IsSendFault};

use crate::send::arrivals::ArrivalKind;
use crate::{ChainState, law_of_transactors};
use asset_bundles::AssetBundle;
use asset_lists::Assets;
use chain_ids::ChainId;
use chain_queues::Cargo;
use exec_base::HostFault;
use locations::Location;
use xcm_program::Program;

impl ChainState {
    /// The message that tells another chain of goods that are put into its account, with the chain that it goes to, and the list that it
    /// carries; or why it isn't sent.
    fn ready_deposit(
        &self,
        goods: &AssetBundle,
        dest: &Location,
        xcm: &Program,
    ) -> Result<(ChainId, Vec<u8>, Assets), HostFault>
        requires forwardable { IsForwardable xcm.now }
        ensures ready { MatchResult result
            (λ ready. IsAcceptedByChannel (part_of self.now) dest.now (listed_program
            (λ a. deposit_program a xcm.now)
            (seen_from (part_of self.now) dest.now (held_assets goods.now))) ready.0
            ready.1.items
            × (listed_refusal (part_of self.now) dest.now (λ a. deposit_program a xcm.now)
            (seen_from (part_of self.now) dest.now (held_assets goods.now)) ≡ None)
            × (ready.2 ≡ held_assets goods.now))
            (IsSendFault (listed_refusal (part_of self.now) dest.now
            (λ a. deposit_program a xcm.now)
            (seen_from (part_of self.now) dest.now (held_assets goods.now)))) }
    {
        let list = goods.list()?;
        let (to, bytes) = match self.encoded_around(
            list.as_slice(),
            dest,
            ArrivalKind::Deposit,
            xcm,
        ) {
            Ok(ready) => ready,
            Err(fault) => return Err(fault),
        };
        let Ok(cargo) = Assets::from_sorted(list) else {
            unreachable!();
        };
        Ok((to, bytes, cargo))
    }

    /// Puts goods into the account of another chain, and tells it. The deposit is the last step that can be refused.
    pub(crate) fn deposit_out(
        &mut self,
        goods: AssetBundle,
        dest: &Location,
        xcm: &Program,
    ) -> Result<u64, (AssetBundle, HostFault)>
        requires forwardable { IsForwardable xcm.now }
        ensures step { TakesGoodsOrRefuses
            (deposit_out_refusal (part_of self.old) goods dest.now xcm.now) goods
            (number_to (part_of self.old) dest.now) (deposited_out (part_of self.old) goods dest.now
            xcm.now) (part_of self.old) result (part_of self.new) }
    {
        // For the prover alone: the chain refuses what its transactors do.
        law_of_transactors();
        let account = match self.check_deposit(&goods, dest) {
            Ok(account) => account,
            Err(error) => return Err((goods, HostFault::Xcm(error))),
        };
        let (to, bytes, cargo) = match self.ready_deposit(&goods, dest, xcm) {
            Ok(ready) => ready,
            Err(fault) => return Err((goods, fault)),
        };
        if self.pending_events.reserve(1).is_err() {
            return Err((goods, HostFault::Memory));
        }
        if let Err(goods) = self.deposit_checked(goods, account) {
            return Err((goods, HostFault::Memory));
        }
        Ok(self.post(to, bytes, Cargo::Deposit(cargo)))
    }

    /// The message that tells another chain of assets that are moved into its account, with the chain that it goes to, and the list that
    /// it carries; or why it isn't sent.
    fn ready_transfer(
        &self,
        list: &Assets,
        dest: &Location,
        xcm: &Program,
    ) -> Result<(ChainId, Vec<u8>, Assets), HostFault>
        requires forwardable { IsForwardable xcm.now }
        ensures ready { MatchResult result
            (λ ready. IsAcceptedByChannel (part_of self.now) dest.now (listed_program
            (λ a. deposit_program a xcm.now)
            (seen_from (part_of self.now) dest.now list.now)) ready.0 ready.1.items
            × (listed_refusal (part_of self.now) dest.now (λ a. deposit_program a xcm.now)
            (seen_from (part_of self.now) dest.now list.now) ≡ None)
            × (ready.2 ≡ list.now))
            (IsSendFault (listed_refusal (part_of self.now) dest.now
            (λ a. deposit_program a xcm.now)
            (seen_from (part_of self.now) dest.now list.now))) }
    {
        let (to, bytes) = match self.encoded_around(list.items(), dest, ArrivalKind::Deposit, xcm) {
            Ok(ready) => ready,
            Err(fault) => return Err(fault),
        };
        let cargo = list.copy()?;
        Ok((to, bytes, cargo))
    }

    /// Moves assets to the account of another chain, and tells it. The move is the last step that can be refused.
    pub(crate) fn transfer_out(
        &mut self,
        list: &Assets,
        from: &Location,
        dest: &Location,
        xcm: &Program,
    ) -> Result<u64, HostFault>
        requires forwardable { IsForwardable xcm.now }
        ensures step { AnswersOrRefuses
            (transfer_out_refusal (part_of self.old) list.now from.now dest.now
            xcm.now) (number_to (part_of self.old) dest.now)
            (transferred_out (part_of self.old) list.now from.now dest.now xcm.now)
            (part_of self.old) result (part_of self.new) }
    {
        // For the prover alone: the chain refuses what its transactors do.
        law_of_transactors();
        let (giver, taker) = match self.check_transfer(list, from, dest) {
            Ok(accounts) => accounts,
            Err(error) => return Err(HostFault::Xcm(error)),
        };
        let (to, bytes, cargo) = match self.ready_transfer(list, dest, xcm) {
            Ok(ready) => ready,
            Err(fault) => return Err(fault),
        };
        self.pending_events.reserve(1)?;
        self.transfer_checked(list, giver, taker)?;
        Ok(self.post(to, bytes, Cargo::Deposit(cargo)))
    }
}
