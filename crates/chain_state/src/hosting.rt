//! The chain as a host.
use crate::ChainState;
use asset_bundles::{AssetBundle, Way};
use asset_lists::{Asset, Assets};
use call_dispatch::{Call, CallEnd};
use exec_base::{Event, Host, HostFault};
use locations::Location;
use operands::{OpenQuery, PalletInfo, QueryInfo, Response, Weight};
use std::alloc::AllocError;
use trust_tables::Site;
use xcm_program::Program;

impl Host for ChainState {
    ghost use Rattle.chain_state.specs.PartOf.{part_of};

    ghost part = { part_of };

    fn site(&self) -> &Site {
        &self.settings.site
    }

    fn pallets(&self) -> &[PalletInfo] {
        self.settings.pallets.items()
    }

    fn open(&self) -> &[OpenQuery] {
        self.queries.as_slice()
    }

    fn withdraw(&mut self, a: &Assets, who: &Location) -> Result<AssetBundle, HostFault> {
        self.withdraw(a, who)
    }

    fn deposit(
        &mut self,
        goods: AssetBundle,
        who: &Location,
    ) -> Result<(), (AssetBundle, HostFault)> {
        self.deposit(goods, who)
    }

    fn transfer(&mut self, a: &Assets, from: &Location, to: &Location) -> Result<(), HostFault> {
        self.transfer(a, from, to)
    }

    fn receive(
        &mut self,
        a: &Assets,
        from: &Location,
        teleport: bool,
    ) -> Result<AssetBundle, HostFault> {
        self.receive(a, from, teleport)
    }

    fn transfer_out(
        &mut self,
        a: &Assets,
        from: &Location,
        dest: &Location,
        xcm: &Program,
    ) -> Result<u64, HostFault> {
        self.transfer_out(a, from, dest, xcm)
    }

    fn deposit_out(
        &mut self,
        goods: AssetBundle,
        dest: &Location,
        xcm: &Program,
    ) -> Result<u64, (AssetBundle, HostFault)> {
        self.deposit_out(goods, dest, xcm)
    }

    fn ship_out(
        &mut self,
        goods: AssetBundle,
        way: Way,
        dest: &Location,
        xcm: &Program,
    ) -> Result<u64, (AssetBundle, HostFault)> {
        self.ship_out(goods, way, dest, xcm)
    }

    fn respond(
        &mut self,
        to: &QueryInfo,
        response: Response,
        querier: Option<&Location>,
    ) -> Result<u64, HostFault> {
        self.respond(to, response, querier)
    }

    fn routes(&self, dest: &Location) -> bool {
        self.routes(dest)
    }

    fn answer(&mut self, from: &Location, query: u64) -> Result<bool, AllocError> {
        self.answer(from, query)
    }

    fn buy(
        &mut self,
        w: Weight,
        payment: AssetBundle,
    ) -> Result<AssetBundle, (AssetBundle, HostFault)> {
        self.buy(w, payment)
    }

    fn refund_of(&self, w: Weight) -> Option<(Location, u128)> {
        self.refund_of(w)
    }

    fn refund(&mut self, w: Weight) -> Result<AssetBundle, AllocError> {
        self.refund(w)
    }

    fn join(&mut self, into: &mut AssetBundle, goods: AssetBundle) -> Result<(), AssetBundle> {
        self.join(into, goods)
    }

    fn burn(&mut self, goods: AssetBundle) -> Result<(), AssetBundle> {
        self.burn(goods)
    }

    fn claim(&mut self, a: &Assets, origin: &Location) -> Result<AssetBundle, HostFault> {
        self.claim(a, origin)
    }

    fn trap(&mut self, goods: AssetBundle, origin: &Location) -> Result<(), AssetBundle> {
        self.trap(goods, origin)
    }

    fn settle(&mut self) -> Result<(), AllocError> {
        self.settle()
    }

    fn park(&mut self, goods: AssetBundle) {
        self.park(goods);
    }

    fn has_fee(&self, dest: &Location) -> bool {
        self.has_fee(dest)
    }

    fn fee_of(&self, dest: &Location) -> Option<Asset> {
        self.fee_of(dest)
    }

    fn hold_fee(&mut self, goods: AssetBundle) {
        self.hold_fee(goods);
    }

    fn take_fee(&mut self) -> AssetBundle {
        self.take_fee()
    }

    fn keep_fee(&mut self) {
        self.keep_fee();
    }

    fn draw_fee(&mut self, fee: &Asset, who: &Location) -> Result<AssetBundle, HostFault> {
        self.draw_fee(fee, who)
    }

    fn calls(&self) -> bool {
        self.settings.calls
    }

    fn dispatch(&mut self, who: &[u8; 32], call: &Call) -> Result<CallEnd, AllocError> {
        self.dispatch(who, call)
    }

    fn locks(&self) -> bool {
        self.settings.locks
    }

    fn lock(
        &mut self,
        asset: &Asset,
        owner: &Location,
        unlocker: &Location,
    ) -> Result<u64, HostFault> {
        self.lock(asset, owner, unlocker)
    }

    fn unlock(
        &mut self,
        asset: &Asset,
        target: &Location,
        from: &Location,
    ) -> Result<(), HostFault> {
        self.unlock(asset, target, from)
    }

    fn note(&mut self, asset: &Asset, owner: &Location, from: &Location) -> Result<(), HostFault> {
        self.note(asset, owner, from)
    }

    fn request(
        &mut self,
        asset: &Asset,
        owner: &Location,
        locker: &Location,
    ) -> Result<u64, HostFault> {
        self.request(asset, owner, locker)
    }

    fn exchange(
        &mut self,
        give: AssetBundle,
        want: &Assets,
        maximal: bool,
    ) -> Result<AssetBundle, (AssetBundle, HostFault)> {
        self.exchange(give, want, maximal)
    }

    #[inline(always)]
    fn event(&mut self, e: Event) -> Result<(), AllocError> {
        self.event(e)
    }
}
