//! Totals of what an audit tells of an asset.
ghost use Rattle.std.specs.Prelude.{◌≡◌, ◌+◌, min};
ghost use Rattle.asset_bundles.specs.Books.{most_burned};
ghost use Rattle.asset_bundles.specs.Totals.{total_value};
ghost use Rattle.supply_audit.specs.Supplies.{no_supply};

use asset_bundles::Total;
use ledgers::Supply;

/// Nothing.
pub(crate) fn none() -> Total
    ensures { total_value result ≡ 0 }
{
    Total { high: 0, low: 0 }
}

/// Nothing anywhere.
pub(crate) fn no_supply() -> Supply
    ensures { result ≡ no_supply }
{
    Supply {
        home: Total { high: 0, low: 0 },
        flight: Total { high: 0, low: 0 },
        burned: Total { high: 0, low: 0 },
    }
}

/// The sums of both; each saturates at 2^160-1.
pub(crate) fn sum(one: Supply, other: Supply) -> Supply
    ensures home { total_value result.home
        ≡ min (total_value one.home + total_value other.home) most_burned }
    ensures flight { total_value result.flight
        ≡ min (total_value one.flight + total_value other.flight) most_burned }
    ensures burned { total_value result.burned
        ≡ min (total_value one.burned + total_value other.burned) most_burned }
{
    Supply {
        home: one.home.sum(other.home),
        flight: one.flight.sum(other.flight),
        burned: one.burned.sum(other.burned),
    }
}
