//! Units at rest, parted in pieces.
ghost use Rattle.std.specs.Prelude.{◌≡◌, ◌+◌, ◌-◌, ◌^◌, length, min, IfOk};
ghost use Rattle.amounts.specs.Amounts.{rows};
ghost use Rattle.asset_bundles.specs.Traps.{piece_count, pieces_of};

use crate::{Trap, Units};
use asset_lists::MAX_ASSETS;
use locations::Location;
use std::alloc::{AllocError, Global};

/// The traps of these units, at most 20 kinds in each, and the number after theirs.
pub(crate) fn in_pieces(
    alloc: Global,
    goods: &Units,
    first: u64,
    origin: &Location,
) -> Result<(Vec<Trap>, u64), AllocError>
    ensures traps { IfOk result (λ made. made.0.items ≡ pieces_of first origin.now goods.now) }
    ensures number { IfOk result
        (λ made. made.1 ≡ min (first + piece_count (length (rows goods.now))) (2 ^ 64 - 1)) }
{
    let count = goods.kinds().div_ceil(MAX_ASSETS);
    let mut traps = Vec::new(alloc);
    let mut number = first;
    for piece in 0..count {
        let place = piece * MAX_ASSETS;
        let part = goods.part(place, MAX_ASSETS)?;
        traps.push(Trap {
            number,
            origin: origin.copy(),
            goods: part,
        })?;
        number = number.saturating_add(1);
    }
    Ok((traps, number))
}
