//! How much a pool gives for an amount, and how little it takes to get one.
ghost use Rattle.std.specs.Prelude.{◌≡◌, ◌+◌, ◌-◌, ◌*◌, ◌≤◌, IfSome};
ghost use Rattle.asset_pools.specs.Pools.{best_out, least_in, IsLeast};

/// No reserve of a pool may reach it: 2^58. So every product here stays below 2^126.
const RESERVE_END: u128 = 288_230_376_151_711_744;

/// What a pool with the reserves `x` and `y` gives of the second for `a` of the first, of which `g` thousandths count. It is rounded
/// down. None where `x`, `y` or `a` is 0, or `y` or `x + a` is 2^58 or more. No memory is taken.
pub fn best_out(x: u128, y: u128, g: u32, a: u128) -> Option<u128>
    requires some { 1 ≤ g }
    requires all { g ≤ 1000 }
    ensures given { result ≡ best_out x y g a }
    ensures kept { IfSome result (λ o. x * y ≤ (x + a) * (y - o)) }
{
    if x == 0 || y == 0 || a == 0 || RESERVE_END <= y || RESERVE_END <= x.saturating_add(a) {
        return None;
    }
    let g = u128::from(g);
    Some(y * a * g / (x * 1000 + a * g))
}

/// The least amount, from 0 on, for which a pool with the reserves `x` and `y` gives `w` of the second or more. None where `x` or `w` is 0,
/// `w` is `y` or more, or `y`, or `x` and that amount together, is 2^58 or more. No memory is taken.
pub fn least_in(x: u128, y: u128, g: u32, w: u128) -> Option<u128>
    requires some { 1 ≤ g }
    requires all { g ≤ 1000 }
    ensures found { result ≡ least_in x y g w }
    ensures least { IfSome result (λ a. IsLeast x y g w a) }
    ensures kept { IfSome result (λ a. x * y ≤ (x + a) * (y - w)) }
{
    if x == 0 || w == 0 || y <= w || RESERVE_END <= y || RESERVE_END <= x {
        return None;
    }
    let least = (w * x * 1000).div_ceil((y - w) * u128::from(g));
    if RESERVE_END <= x + least {
        return None;
    }
    Some(least)
}
