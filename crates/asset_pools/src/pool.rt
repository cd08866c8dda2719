//! A pool of a chain.
ghost use Rattle.std.specs.Prelude.{◌≡◌, ◌<◌, ◌^◌, length};
ghost use Rattle.asset_lists.specs.declared.units.AssetId.TheVariants.{Concrete};
ghost use Rattle.asset_pools.specs.Exchanges.{pool_account, is_pool_account, has_pair, same_id};

use asset_lists::AssetId;
use locations::Location;

/// A pool of two fungible assets that the chain lists, as the network document has it. Its reserves are what its account has of the two.
#[derive(Debug, Drop)]
pub struct Pool {
    /// The location that defines the first asset.
    pub first: Location,
    /// The location that defines the second asset, another one.
    pub second: Location,
    /// How many thousandths of what is given don't count.
    pub fee: u32,
}

/// The account of the pool at this index in its chain's list, of 32 bytes.
pub fn pool_account(place: u32) -> [u8; 32]
    ensures { result ≡ pool_account place }
{
    let [a, b, c, d] = place.to_le_bytes();
    [
        b'p', b'o', b'o', b'l', a, b, c, d, 0, 0, 0, 0, 0, 0, 0, 0, 0, 0, 0, 0, 0, 0, 0, 0, 0, 0,
        0, 0, 0, 0, 0, 0,
    ]
}

/// Whether the account is that of one of the pools of a chain, of which there are fewer than 2^32.
pub fn is_pool_account(pools: &[Pool], account: &[u8; 32]) -> bool
    requires few { length pools.now < 2 ^ 32 }
    ensures { result ≡ is_pool_account pools.now account.now }
{
    (0..pools.len()).any(|place| *account == pool_account(place as u32))
}

/// Whether the id is this location.
fn is_of(id: &AssetId, place: &Location) -> bool
    ensures { result ≡ same_id id.now (Concrete place.now) }
{
    match id {
        AssetId::Concrete(l) => l == place,
        AssetId::Abstract(_) => false,
    }
}

impl Pool {
    /// Whether the pool's two assets are these, in whichever order, and not one asset twice.
    pub fn has_pair(&self, a: &AssetId, b: &AssetId) -> bool
        ensures { result ≡ has_pair a.now b.now self.now }
    {
        let one = a == b;
        let forth = is_of(a, &self.first) && is_of(b, &self.second);
        let back = is_of(a, &self.second) && is_of(b, &self.first);
        !one && (forth || back)
    }
}
