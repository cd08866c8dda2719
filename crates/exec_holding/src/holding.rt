//! What goes into the holding, and out of it.
ghost use Rattle.std.specs.Prelude.{◌≡◌, ◌+◌, ◌*◌, nat_le, length, IsFalse, IfOk, OnOk, OnErr};
ghost use Rattle.amounts.specs.Amounts.{merge, rows};
ghost use Rattle.asset_lists.specs.Units.{is_zero};
ghost use Rattle.asset_bundles.specs.Joins.{Joined};
ghost use Rattle.exec_base.specs.Host.{bundles_joined, parked};
ghost use Rattle.exec_holding.specs.Holding.{IsAnswerTo, IsJoinable, IsReturnable, TakesAsset};

use asset_bundles::{AssetBundle, TakeFault};
use asset_lists::Asset;
use exec_base::{Host, HostFault};
use operands::XcmError;
use std::alloc::{AllocError, Global};

/// Joins goods from outside to what is held, or parks them where memory is refused.
pub fn hold<H: Host>(
    holding: &mut AssetBundle,
    h: &mut H,
    goods: AssetBundle,
) -> Result<(), AllocError>
    requires joinable { IsJoinable holding.old (H.part h.old) goods }
    ensures ok { OnOk result (holding.new ≡ Joined holding.old goods) }
    ensures ok_part { OnOk result (H.part h.new ≡ bundles_joined (H.part h.old) holding.old goods) }
    ensures err { OnErr result (holding.new ≡ holding.old) }
    ensures err_part { OnErr result (H.part h.new ≡ parked (H.part h.old) goods) }
{
    match h.join(holding, goods) {
        Ok(()) => Ok(()),
        Err(goods) => {
            h.park(goods);
            Err(AllocError)
        }
    }
}

/// Puts back what was taken from the holding, or parks it where memory is refused.
pub fn put_back<H: Host>(
    holding: &mut AssetBundle,
    h: &mut H,
    goods: AssetBundle,
) -> Result<(), AllocError>
    requires returnable { IsReturnable holding.old (H.part h.old) goods }
    ensures ok { OnOk result (holding.new ≡ merge holding.old goods) }
    ensures ok_part { OnOk result (H.part h.new ≡ H.part h.old) }
    ensures err { OnErr result (holding.new ≡ holding.old) }
    ensures err_part { OnErr result (H.part h.new ≡ parked (H.part h.old) goods) }
{
    match holding.put_back(goods) {
        Ok(()) => Ok(()),
        Err(goods) => {
            h.park(goods);
            Err(AllocError)
        }
    }
}

/// What an instruction answers to a call of the host that is refused.
pub fn answer_of(fault: HostFault) -> Result<Result<(), XcmError>, AllocError>
    ensures { IsAnswerTo fault result }
{
    match fault {
        HostFault::Xcm(e) => Ok(Err(e)),
        HostFault::Memory => Err(AllocError),
    }
}

/// Whether so many kinds more don't pass twice the limit of the holding.
pub fn has_room(holding: &AssetBundle, max_holding: u32, more: usize) -> bool
    ensures { result ≡ nat_le (length (rows holding.now) + more) (2 * max_holding) }
{
    holding.kinds() as u128 + more as u128 <= 2 * u128::from(max_holding)
}

/// Takes one asset in full, which is no amount of 0; none where it isn't held.
#[tactic(auto, using(crate::proofs::Lemmas::one_is_held, crate::proofs::Lemmas::one_not_held))]
pub fn take_asset(
    alloc: Global,
    holding: &mut AssetBundle,
    asset: &Asset,
) -> Result<Option<AssetBundle>, AllocError>
    requires some { IsFalse (is_zero asset.now) }
    ensures ok { IfOk result (λ taken. TakesAsset asset.now holding.old taken holding.new) }
    ensures err { OnErr result (holding.new ≡ holding.old) }
{
    match holding.try_take_one(alloc, asset) {
        Ok(goods) => Ok(Some(goods)),
        Err(TakeFault::NotHeld) => Ok(None),
        Err(TakeFault::Memory) => Err(AllocError),
    }
}
