//! What weight costs in one asset.
ghost use Rattle.std.specs.Prelude.{◌≡◌};
ghost use Rattle.weight_trader.specs.Prices.{price};

use locations::Location;
use operands::Weight;

/// Picoseconds in a second.
const SECOND: u128 = 1_000_000_000_000;

/// Bytes in a mebibyte.
const MEBIBYTE: u128 = 1_048_576;

/// What weight costs in one asset, in both dimensions.
#[derive(Debug, Drop)]
pub struct Rate {
    /// What is paid with: the location that defines the asset.
    pub asset: Location,
    /// The price of a second of computation, in the asset's smallest unit.
    pub per_second: u64,
    /// The price of 1,048,576 bytes of the storage proof, in the asset's smallest unit.
    pub per_mb: u64,
}

impl Rate {
    /// The same rate.
    pub fn copy(&self) -> Rate
        ensures { result ≡ self.now }
    {
        Rate {
            asset: self.asset.copy(),
            per_second: self.per_second,
            per_mb: self.per_mb,
        }
    }
}

/// What the weight costs at this rate, in the asset's smallest unit; each dimension's price is rounded down.
pub fn price(rate: &Rate, weight: Weight) -> u128
    ensures { result ≡ price rate.now weight }
{
    let per_second = rate.per_second;
    let per_mb = rate.per_mb;
    let time = u128::from(per_second) * u128::from(weight.ref_time) / SECOND;
    let proof = u128::from(per_mb) * u128::from(weight.proof_size) / MEBIBYTE;
    time + proof
}
