//! The chain as a host: each call is that of the chain state.
use crate::FakeHost;
use asset_bundles::{AssetBundle, Way};
use asset_lists::{Asset, Assets};
use call_dispatch::{Call, CallEnd};
use exec_base::{Event, Host, HostFault};
use locations::Location;
use operands::{OpenQuery, PalletInfo, QueryInfo, Response, Weight};
use std::alloc::AllocError;
use trust_tables::Site;
use xcm_program::Program;

impl Host for FakeHost {
    ghost use Rattle.test_execution.specs.PartOf.{fake_part_of};

    ghost part = { fake_part_of };

    fn site(&self) -> &Site {
        self.chain.site()
    }

    fn pallets(&self) -> &[PalletInfo] {
        self.chain.pallets()
    }

    fn open(&self) -> &[OpenQuery] {
        self.chain.open_queries()
    }

    fn withdraw(&mut self, a: &Assets, who: &Location) -> Result<AssetBundle, HostFault> {
        self.chain.withdraw(a, who)
    }

    fn deposit(
        &mut self,
        goods: AssetBundle,
        who: &Location,
    ) -> Result<(), (AssetBundle, HostFault)> {
        self.chain.deposit(goods, who)
    }

    fn transfer(&mut self, a: &Assets, from: &Location, to: &Location) -> Result<(), HostFault> {
        self.chain.transfer(a, from, to)
    }

    fn receive(
        &mut self,
        a: &Assets,
        from: &Location,
        teleport: bool,
    ) -> Result<AssetBundle, HostFault> {
        self.chain.receive(a, from, teleport)
    }

    fn transfer_out(
        &mut self,
        a: &Assets,
        from: &Location,
        dest: &Location,
        xcm: &Program,
    ) -> Result<u64, HostFault> {
        self.chain.transfer_out(a, from, dest, xcm)
    }

    fn deposit_out(
        &mut self,
        goods: AssetBundle,
        dest: &Location,
        xcm: &Program,
    ) -> Result<u64, (AssetBundle, HostFault)> {
        self.chain.deposit_out(goods, dest, xcm)
    }

    fn ship_out(
        &mut self,
        goods: AssetBundle,
        way: Way,
        dest: &Location,
        xcm: &Program,
    ) -> Result<u64, (AssetBundle, HostFault)> {
        self.chain.ship_out(goods, way, dest, xcm)
    }

    fn respond(
        &mut self,
        to: &QueryInfo,
        response: Response,
        querier: Option<&Location>,
    ) -> Result<u64, HostFault> {
        self.chain.respond(to, response, querier)
    }

    fn routes(&self, dest: &Location) -> bool {
        self.chain.routes(dest)
    }

    fn answer(&mut self, from: &Location, query: u64) -> Result<bool, AllocError> {
        self.chain.answer(from, query)
    }

    fn buy(
        &mut self,
        w: Weight,
        payment: AssetBundle,
    ) -> Result<AssetBundle, (AssetBundle, HostFault)> {
        self.chain.buy(w, payment)
    }

    fn refund_of(&self, w: Weight) -> Option<(Location, u128)> {
        self.chain.refund_of(w)
    }

    fn refund(&mut self, w: Weight) -> Result<AssetBundle, AllocError> {
        self.chain.refund(w)
    }

    fn join(&mut self, into: &mut AssetBundle, goods: AssetBundle) -> Result<(), AssetBundle> {
        self.chain.join(into, goods)
    }

    fn burn(&mut self, goods: AssetBundle) -> Result<(), AssetBundle> {
        self.chain.burn(goods)
    }

    fn claim(&mut self, a: &Assets, origin: &Location) -> Result<AssetBundle, HostFault> {
        self.chain.claim(a, origin)
    }

    fn trap(&mut self, goods: AssetBundle, origin: &Location) -> Result<(), AssetBundle> {
        self.chain.trap(goods, origin)
    }

    fn settle(&mut self) -> Result<(), AllocError> {
        self.chain.settle()
    }

    fn park(&mut self, goods: AssetBundle) {
        self.chain.park(goods);
    }

    fn has_fee(&self, dest: &Location) -> bool {
        self.chain.has_fee(dest)
    }

    fn fee_of(&self, dest: &Location) -> Option<Asset> {
        self.chain.fee_of(dest)
    }

    fn hold_fee(&mut self, goods: AssetBundle) {
        self.chain.hold_fee(goods);
    }

    fn take_fee(&mut self) -> AssetBundle {
        self.chain.take_fee()
    }

    fn keep_fee(&mut self) {
        self.chain.keep_fee();
    }

    fn draw_fee(&mut self, fee: &Asset, who: &Location) -> Result<AssetBundle, HostFault> {
        self.chain.draw_fee(fee, who)
    }

    fn calls(&self) -> bool {
        self.chain.calls()
    }

    fn dispatch(&mut self, who: &[u8; 32], call: &Call) -> Result<CallEnd, AllocError> {
        self.chain.dispatch(who, call)
    }

    fn locks(&self) -> bool {
        self.chain.locks()
    }

    fn lock(
        &mut self,
        asset: &Asset,
        owner: &Location,
        unlocker: &Location,
    ) -> Result<u64, HostFault> {
        self.chain.lock(asset, owner, unlocker)
    }

    fn unlock(
        &mut self,
        asset: &Asset,
        target: &Location,
        from: &Location,
    ) -> Result<(), HostFault> {
        self.chain.unlock(asset, target, from)
    }

    fn note(&mut self, asset: &Asset, owner: &Location, from: &Location) -> Result<(), HostFault> {
        self.chain.note(asset, owner, from)
    }

    fn request(
        &mut self,
        asset: &Asset,
        owner: &Location,
        locker: &Location,
    ) -> Result<u64, HostFault> {
        self.chain.request(asset, owner, locker)
    }

    fn exchange(
        &mut self,
        give: AssetBundle,
        want: &Assets,
        maximal: bool,
    ) -> Result<AssetBundle, (AssetBundle, HostFault)> {
        self.chain.exchange(give, want, maximal)
    }

    fn event(&mut self, e: Event) -> Result<(), AllocError> {
        self.chain.event(e)
    }
}
