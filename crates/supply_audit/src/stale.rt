//! Which positions are at chains that have changed.
ghost use Rattle.std.specs.Prelude.{◌≡◌};
ghost use Rattle.supply_audit.specs.Stale as flags;

use crate::Place;

/// Whether the chain of this number counts as changed, by a flag for each chain; so does a chain that has no flag.
fn is_stale(stale: &[bool], chain: usize) -> bool
    ensures { result ≡ flags.is_stale stale.now chain }
{
    match stale.get(chain) {
        Some(changed) => *changed,
        None => true,
    }
}

/// Whether one of these positions is at a chain that has changed, by a flag for each chain.
pub fn are_touched(stale: &[bool], places: &[Place]) -> bool
    ensures { result ≡ flags.are_touched stale.now places.now }
{
    places.iter().any(|place| is_stale(stale, place.chain))
}
