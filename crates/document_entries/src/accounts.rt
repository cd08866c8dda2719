//! What accounts hold.
ghost use Rattle.std.specs.Prelude.{codes};
ghost use Rattle.serde_json.specs.View.{view};
ghost use Rattle.document_entries.specs.Answers.{Answers};
ghost use Rattle.document_entries.specs.Entries.{account, either, made, positive_amount_form, instance_form};
ghost use Rattle.asset_lists.specs.declared.units.Fun.TheVariants.{Fungible, NonFungible};

use crate::alternatives::both_there;
use crate::fields::needed;
use crate::places::{fill_location, instance_of};
use crate::rates::amount_of;
use crate::{NetworkFault, Place, Stop, bytes_of, check_fields};
use asset_lists::{Asset, AssetId, Fun};
use locations::Location;
use network_spec::Balance;
use serde_json::Value;
use std::alloc::Global;

/// An amount, or an instance.
fn fun_of(alloc: Global, place: Place, value: &Value) -> Result<Fun, Stop>
    ensures { Answers result
        (either (codes "amount") (made Fungible positive_amount_form) (codes "instance")
        (made NonFungible instance_form) place (view value.now)) }
{
    match value.get("amount") {
        Some(amount) => match value.get("instance") {
            Some(instance) => Err(both_there(
                place,
                amount_of(place, amount),
                instance_of(alloc, place, instance),
            )),
            None => Ok(Fun::Fungible(amount_of(place, amount)?)),
        },
        None => match value.get("instance") {
            Some(instance) => Ok(Fun::NonFungible(instance_of(alloc, place, instance)?)),
            None => Err(Stop::Fault(NetworkFault::MissingField(place))),
        },
    }
}

/// What an account holds.
#[tactic(auto, unfolding(crate::specs::Entries::account, crate::specs::Forms::fields, crate::specs::Forms::required_field))]
pub fn account_of(alloc: Global, place: Place, value: &Value) -> Result<Balance, Stop>
    ensures { Answers result (account place (view value.now)) }
{
    check_fields(place, &["who", "asset", "amount", "instance"], value)?;
    let who = bytes_of(place, needed(place, "who", value)?)?;
    let mut id = Location::here();
    fill_location(alloc, place, needed(place, "asset", value)?, &mut id)?;
    let fun = fun_of(alloc, place, value)?;
    Ok(Balance {
        who,
        asset: Asset {
            id: AssetId::Concrete(id),
            fun,
        },
    })
}
