//! Shipments sent off, read and lost.
ghost use Rattle.std.specs.Prelude.{◌≡◌, IfOk};
ghost use Rattle.amounts.specs.Amounts.{total};
ghost use Rattle.asset_bundles.specs.Bundles.{IsHolding, bundle_of, held_assets, is_asset};
ghost use Rattle.asset_bundles.specs.Books.{AreListed};
ghost use Rattle.asset_bundles.specs.Losing.{book_after_loss};

use crate::{AssetBundle, BurnBook, Cause, Shipment, Way};
use asset_lists::{Asset, AssetId, Kind};
use std::alloc::AllocError;

impl AssetBundle {
    /// Sends the bundle off.
    pub fn ship(self, way: Way) -> Shipment
        ensures way { result.way ≡ way }
        ensures units { result.units ≡ self }
    {
        Shipment {
            way,
            units: self.set_down(),
        }
    }
}

impl Shipment {
    /// How it was shipped.
    pub fn way(&self) -> Way
        ensures { result ≡ self.now.way }
    {
        self.way
    }

    /// The amount of a fungible asset in its smallest unit, or the number of instances of a class, under
    /// the sender's ids.
    pub fn total(&self, id: &AssetId, kind: Kind) -> u128
        ensures { result ≡ total (is_asset id.now kind) self.now.units }
    {
        self.units.total(id, kind)
    }

    /// All assets in holding order, under the sender's ids.
    pub fn list(&self) -> Result<Vec<Asset>, AllocError>
        ensures listed { IfOk result (λ assets. assets.items ≡ held_assets self.now.units) }
        ensures bundle { IfOk result (λ assets. bundle_of assets.items ≡ self.now.units) }
    {
        self.units.list()
    }

    /// The same, borrowed.
    pub fn items(&self) -> &[Asset]
        ensures holding { IsHolding result.now }
        ensures listed { result.now ≡ held_assets self.now.units }
        ensures bundle { bundle_of result.now ≡ self.now.units }
    {
        self.units.items()
    }

    /// Ends a shipment that came nowhere: a teleport is booked as lost, and nothing else.
    pub fn lose(self, book: &mut BurnBook)
        requires { AreListed book.old.listed self.units }
        ensures { book.new ≡ book_after_loss self.way self.units book.old }
    {
        let Shipment { way, units } = self;
        let goods = AssetBundle::take_up(units);
        match way {
            Way::Withdrawal => goods.melt(),
            Way::Teleport => goods.burn(book, Cause::LostTeleport),
        }
    }
}
