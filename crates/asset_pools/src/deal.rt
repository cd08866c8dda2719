//! An exchange of what a holding has with a pool.
ghost use Rattle.std.specs.Prelude.{◌≡◌, ◌+◌, ◌-◌, ◌*◌, ◌≤◌, IfSome};
ghost use Rattle.asset_pools.specs.Pools.{deal_at};

use crate::{best_out, least_in};

/// What an exchange moves.
#[derive(Clone, Copy, Debug, PartialEq, Eq)]
pub struct Deal {
    /// What goes from the holding to the pool, of the given asset.
    pub to_pool: u128,
    /// What comes from the pool to the holding, of the wanted asset.
    pub to_holding: u128,
}

/// The exchange of a holding that has `h` of the first asset for at least `w` of the second, with a pool whose reserves are `x` and `y`:
/// with `maximal` all of `h` for as much as the pool gives, else the least amount that pays for `w`, for `w`. None where the pool gives
/// nothing or too little. No memory is taken.
pub fn deal_at(x: u128, y: u128, g: u32, h: u128, w: u128, maximal: bool) -> Option<Deal>
    requires some { 1 ≤ g }
    requires all { g ≤ 1000 }
    ensures made { result ≡ deal_at x y g h w maximal }
    ensures kept { IfSome result (λ d. x * y ≤ (x + d.to_pool) * (y - d.to_holding)) }
{
    if maximal {
        let out = best_out(x, y, g, h)?;
        if out == 0 || out < w {
            return None;
        }
        return Some(Deal {
            to_pool: h,
            to_holding: out,
        });
    }
    let least = least_in(x, y, g, w)?;
    if h < least {
        return None;
    }
    Some(Deal {
        to_pool: least,
        to_holding: w,
    })
}
