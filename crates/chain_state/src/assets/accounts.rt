//! Assets that move into accounts and out of them, and those that other chains send here.
ghost use Rattle.std.specs.Prelude.{◌≡◌, ◌-◌, ℕ, List, if◌then◌else◌, [], ◌∷◌, Some, None, OnOk, MatchResult};
ghost use Rattle.amounts.specs.Amounts.{amount};
ghost use Rattle.asset_lists.specs.Units.{unit_of};
ghost use Rattle.asset_bundles.specs.Bundles.{bundle_of};
ghost use Rattle.trust_tables.specs.Accounts.{account_of};
ghost use Rattle.exec_base.specs.Answers.{AnswersOrRefuses, TakesGoodsOrRefuses, Keeps, AnswersWithinMemory};
ghost use Rattle.exec_base.specs.Host.{IsPrice, given, fee_drawn, withdraw_refusal, withdrawn, deposit_refusal, deposited, transfer_refusal, transferred, receive_refusal, received, changed_all};
ghost use Rattle.exec_base.specs.Part.{accounts_of};
ghost use Rattle.transactors.specs.Moves.{deposit_fault, transfer_fault, after_deposit, after_transfer};
ghost use Rattle.chain_state.specs.PartOf.{part_of};
ghost use Rattle.chain_state.specs.Transacting.{handled_rows, kept_floors};

use crate::assets::transactor::{error_of, fault_of, transactors_of};
use crate::send::arrivals::ArrivalKind;
use crate::{ChainState, law_of_transactors};
use asset_bundles::{AssetBundle, law_of_bundles};
use asset_lists::{Asset, Assets};
use exec_base::HostFault;
use locations::Location;
use operands::XcmError;
use std::alloc::AllocError;
use transactors::{
    deposit_all, deposit_checked, deposit_fault, law_of_floors_of_moves, transfer_all,
    transfer_checked, transfer_fault, withdraw_all,
};
use trust_tables::account_of;

impl ChainState {
    /// Takes the listed assets out of the location's account.
    pub(crate) fn withdraw_list(
        &mut self,
        list: &Assets,
        who: &Location,
    ) -> Result<AssetBundle, HostFault>
        ensures { AnswersOrRefuses (withdraw_refusal (part_of self.old) list.now who.now)
            (bundle_of list.now) (given (part_of self.old) list.now who.now)
            (part_of self.old) result (part_of self.new) }
    {
        // For the prover alone: the chain refuses what its transactors do, floors stay, no asset is twice in a list.
        law_of_transactors();
        law_of_floors_of_moves();
        law_of_bundles();
        let _items = list.items();
        let alloc = *self.events.allocator();
        let movers = transactors_of(&self.settings, &self.locked);
        match withdraw_all(alloc, &movers, &mut self.ledger, list, who) {
            Ok(goods) => Ok(goods),
            Err(fault) => Err(fault_of(fault)),
        }
    }

    /// What the location's account has of the asset's unit; 0 without account.
    fn held_at(&self, asset: &Asset, who: &Location) -> u128
        ensures { (account : List ℕ) → account_of who.now (part_of self.now).site ≡ Some account
            → result ≡ amount (part_of self.now).held (account, unit_of asset.now) }
    {
        match account_of(who, &self.settings.site) {
            Some(account) => self.ledger.held_of(&account, asset),
            None => 0,
        }
    }

    /// Takes a fee out of the location's account, which can take it back.
    #[tactic(auto, unfolding(exec_base::specs::Host::fee_drawn))]
    pub(crate) fn draw_fee(&mut self, fee: &Asset, who: &Location) -> Result<AssetBundle, HostFault>
        requires price { IsPrice fee.now }
        ensures step { AnswersOrRefuses (withdraw_refusal (part_of self.old) (fee.now ∷ []) who.now)
            (bundle_of (fee.now ∷ [])) (fee_drawn (part_of self.old) (fee.now ∷ []) who.now)
            (part_of self.old) result (part_of self.new) }
        ensures back { OnOk result
            (deposit_refusal (part_of self.new) (bundle_of (fee.now ∷ [])) who.now ≡ None) }
    {
        // For the prover alone: an amount has 128 bits.
        let _have = self.held_at(fee, who);
        let list = Assets::of_one(*self.events.allocator(), fee)?;
        self.withdraw_list(&list, who)
    }

    /// The location's account, where the goods can be put into it, or why they aren't. A location without account can
    /// only take nothing.
    pub(crate) fn check_deposit(
        &self,
        goods: &AssetBundle,
        who: &Location,
    ) -> Result<Option<[u8; 32]>, XcmError>
        ensures { MatchResult result
            (λ account. (account ≡ account_of who.now (part_of self.now).site)
            × (deposit_refusal (part_of self.now) goods.now who.now ≡ None))
            (λ error. deposit_refusal (part_of self.now) goods.now who.now ≡ Some error) }
    {
        // For the prover alone: the chain refuses what its transactors do.
        law_of_transactors();
        let movers = transactors_of(&self.settings, &self.locked);
        let account = account_of(who, &self.settings.site);
        match deposit_fault(&movers, &self.ledger, goods, account) {
            None => Ok(account),
            Some(fault) => Err(error_of(fault)),
        }
    }

    /// Puts goods into the location's account.
    pub(crate) fn deposit(
        &mut self,
        goods: AssetBundle,
        who: &Location,
    ) -> Result<(), (AssetBundle, HostFault)>
        ensures step { TakesGoodsOrRefuses (deposit_refusal (part_of self.old) goods who.now) goods
            tt (deposited (part_of self.old) goods who.now)
            (part_of self.old) result (part_of self.new) }
    {
        // For the prover alone: the chain refuses what its transactors do, and floors stay.
        law_of_transactors();
        law_of_floors_of_moves();
        let movers = transactors_of(&self.settings, &self.locked);
        match deposit_all(&movers, &mut self.ledger, goods, who) {
            Ok(()) => Ok(()),
            Err((goods, fault)) => Err((goods, fault_of(fault))),
        }
    }

    /// Puts goods into the account, which isn't refused them. They are handed back where memory is refused.
    pub(crate) fn deposit_checked(
        &mut self,
        goods: AssetBundle,
        account: Option<[u8; 32]>,
    ) -> Result<(), AssetBundle>
        requires free { deposit_fault (handled_rows (part_of self.old))
            (accounts_of (part_of self.old)) goods account ≡ None }
        ensures room { self.new.pending_events ≡ self.old.pending_events }
        ensures step { Keeps goods (record (part_of self.old) {
          held = (after_deposit goods account (accounts_of (part_of self.old))).held;
        }) (part_of self.old) result (part_of self.new) }
    {
        // For the prover alone: each account keeps its floors.
        law_of_floors_of_moves();
        let movers = transactors_of(&self.settings, &self.locked);
        deposit_checked(&movers, &mut self.ledger, goods, account)
    }

    /// The accounts of both locations, where the listed assets can be moved from the first to the second, or why they
    /// aren't.
    pub(crate) fn check_transfer(
        &self,
        list: &Assets,
        from: &Location,
        to: &Location,
    ) -> Result<(Option<[u8; 32]>, Option<[u8; 32]>), XcmError>
        ensures { MatchResult result
            (λ accounts. (accounts.0 ≡ account_of from.now (part_of self.now).site)
            × (accounts.1 ≡ account_of to.now (part_of self.now).site)
            × (transfer_refusal (part_of self.now) list.now from.now to.now ≡ None))
            (λ error. transfer_refusal (part_of self.now) list.now from.now to.now ≡ Some error) }
    {
        // For the prover alone: the chain refuses what its transactors do.
        law_of_transactors();
        let movers = transactors_of(&self.settings, &self.locked);
        let giver = account_of(from, &self.settings.site);
        let taker = account_of(to, &self.settings.site);
        match transfer_fault(&movers, &self.ledger, list, giver, taker) {
            None => Ok((giver, taker)),
            Some(fault) => Err(error_of(fault)),
        }
    }

    /// Moves the listed assets from one location's account to another's.
    pub(crate) fn transfer(
        &mut self,
        list: &Assets,
        from: &Location,
        to: &Location,
    ) -> Result<(), HostFault>
        ensures step { AnswersOrRefuses
            (transfer_refusal (part_of self.old) list.now from.now to.now)
            tt (transferred (part_of self.old) list.now from.now to.now)
            (part_of self.old) result (part_of self.new) }
    {
        // For the prover alone: the chain refuses what its transactors do, floors stay, no asset is twice in a list.
        law_of_transactors();
        law_of_floors_of_moves();
        law_of_bundles();
        let _items = list.items();
        let movers = transactors_of(&self.settings, &self.locked);
        match transfer_all(&movers, &mut self.ledger, list, from, to) {
            Ok(()) => Ok(()),
            Err(fault) => Err(fault_of(fault)),
        }
    }

    /// Moves the listed assets from one account to the other, which isn't refused.
    pub(crate) fn transfer_checked(
        &mut self,
        list: &Assets,
        giver: Option<[u8; 32]>,
        taker: Option<[u8; 32]>,
    ) -> Result<(), AllocError>
        requires free { transfer_fault (handled_rows (part_of self.old))
            (kept_floors (part_of self.old)) (accounts_of (part_of self.old)) list.now giver taker
            ≡ None }
        ensures room { self.new.pending_events ≡ self.old.pending_events }
        ensures step { AnswersWithinMemory tt (record (part_of self.old) {
          held = (after_transfer list.now giver taker (accounts_of (part_of self.old))).held;
        }) (part_of self.old) result (part_of self.new) }
    {
        // For the prover alone: each account keeps its floors, and no asset is twice in a list.
        law_of_floors_of_moves();
        law_of_bundles();
        let _items = list.items();
        let movers = transactors_of(&self.settings, &self.locked);
        transfer_checked(&movers, &mut self.ledger, list, giver, taker)
    }

    /// Lowers the checking accounts of the rows of teleported assets.
    fn lower_for(&mut self, teleport: bool, list: &[Asset])
        ensures { part_of self.new ≡ record (part_of self.old) {
          checking = if teleport
              then changed_all (λ n a. n - a) list.now (part_of self.old).rows
              (part_of self.old).checking else (part_of self.old).checking;
        } }
    {
        if teleport {
            self.change_checking(list, false);
        }
    }

    /// Takes assets out of an account. It ends the cargo that it takes.
    #[tactic(auto, unfolding(exec_base::specs::Host::withdrawn, exec_base::specs::Host::cargo_after))]
    pub(crate) fn withdraw(&mut self, a: &Assets, who: &Location) -> Result<AssetBundle, HostFault>
        ensures step { AnswersOrRefuses (withdraw_refusal (part_of self.old) a.now who.now)
            (bundle_of a.now) (withdrawn (part_of self.old) a.now who.now) (part_of self.old) result
            (part_of self.new) }
    {
        let ends = self.is_cargo(ArrivalKind::Withdrawal, a)?;
        let goods = self.withdraw_list(a, who)?;
        if ends {
            self.land_cargo(ArrivalKind::Withdrawal, a).melt();
        }
        Ok(goods)
    }

    /// Why assets that another chain deposited or teleported here aren't made.
    fn receive_fault(&self, list: &[Asset], from: &Location, teleport: bool) -> Option<XcmError>
        ensures { result ≡ receive_refusal (part_of self.now) list.now from.now teleport }
    {
        if let Some(error) = self.trust_refusal(from, teleport, list) {
            return Some(error);
        }
        if teleport {
            return self.lower_refusal(list);
        }
        None
    }

    /// Makes assets that another chain deposited or teleported here. It ends the cargo that it takes.
    pub(crate) fn receive(
        &mut self,
        a: &Assets,
        from: &Location,
        teleport: bool,
    ) -> Result<AssetBundle, HostFault>
        ensures step { AnswersOrRefuses (receive_refusal (part_of self.old) a.now from.now teleport)
            (bundle_of a.now) (received (part_of self.old) a.now teleport) (part_of self.old) result
            (part_of self.new) }
    {
        if let Some(error) = self.receive_fault(a.items(), from, teleport) {
            return Err(HostFault::Xcm(error));
        }
        let goods = self.arrived(a, teleport)?;
        self.lower_for(teleport, a.items());
        Ok(goods)
    }
}
