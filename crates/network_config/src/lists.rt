//! The lists of a document.
ghost use Rattle.std.specs.Prelude.{◌≡◌, ◌≤◌};
ghost use Rattle.serde_json.specs.View.{view, items_view};
ghost use Rattle.document_entries.specs.Answers.{Answers, AnswersAs};
ghost use Rattle.document_entries.specs.Forms.{list_field, fields};
ghost use Rattle.network_config.specs.Chains.{short_list, checked_lists, chain_fields, truth, flag_or_false, own_chain_fields};

use crate::head::{ChainHead, Served, head_of};
use document_entries::{NetworkFault, Place, Stop, check_fields, list_of};
use serde_json::Value;

/// A list, which is empty where it isn't there.
#[tactic(auto, unfolding(document_entries::specs::Forms::list_field))]
pub(crate) fn list_field<'a>(
    place: Place,
    name: &str,
    value: &'a Value,
) -> Result<&'a [Value], Stop>
    ensures { AnswersAs (λ items. items_view items.now) result
        (list_field name.now place (view value.now)) }
{
    match value.get(name) {
        Some(listed) => list_of(place, listed),
        None => Ok(&[]),
    }
}

/// A list of at most so many.
#[tactic(auto, using(crate::proofs::Counts::count_is), unfolding(crate::specs::Chains::short_list))]
pub(crate) fn short_list<'a>(
    place: Place,
    name: &str,
    most: usize,
    value: &'a Value,
) -> Result<&'a [Value], Stop>
    ensures { AnswersAs (λ items. items_view items.now) result
        (short_list name.now most place (view value.now)) }
{
    let items = list_field(place, name, value)?;
    if items.len() > most {
        return Err(Stop::Fault(NetworkFault::LimitPassed(place)));
    }
    Ok(items)
}

/// Refuses a chain where what is to be a list isn't one, or a list is too long.
#[tactic(auto, unfolding(crate::specs::Chains::checked_lists))]
fn check_lists(place: Place, value: &Value) -> Result<(), Stop>
    ensures { Answers result (checked_lists place (view value.now)) }
{
    let _ = list_field(place, "barriers", value)?;
    let _ = list_field(place, "rates", value)?;
    let _ = short_list(place, "assets", 128, value)?;
    let _ = list_field(place, "accounts", value)?;
    let _ = short_list(place, "pallets", 64, value)?;
    let _ = list_field(place, "queries", value)?;
    Ok(())
}

/// Refuses a chain with a field that the format doesn't have.
fn check_chain_fields(place: Place, more: bool, value: &Value) -> Result<(), Stop>
    ensures { Answers result (fields (chain_fields more) place (view value.now)) }
{
    if more {
        return check_fields(
            place,
            &[
                "para",
                "unit_weight",
                "max_weight",
                "max_instructions",
                "max_holding",
                "fee_account",
                "barriers",
                "rates",
                "assets",
                "accounts",
                "pallets",
                "queries",
                "calls",
                "locks",
                "pools",
            ],
            value,
        );
    }
    check_fields(
        place,
        &[
            "para",
            "unit_weight",
            "max_weight",
            "max_instructions",
            "max_holding",
            "fee_account",
            "barriers",
            "rates",
            "assets",
            "accounts",
            "pallets",
            "queries",
        ],
        value,
    )
}

/// True or false.
#[tactic(auto, unfolding(crate::specs::Chains::truth))]
fn truth_of(place: Place, value: &Value) -> Result<bool, Stop>
    ensures { Answers result (truth place (view value.now)) }
{
    match value.as_bool() {
        Some(truth) => Ok(truth),
        None => Err(Stop::Fault(NetworkFault::WrongKind(place))),
    }
}

/// True or false, and false where it isn't there.
fn flag_field(place: Place, name: &str, value: &Value) -> Result<bool, Stop>
    ensures { Answers result (flag_or_false name.now place (view value.now)) }
{
    match value.get(name) {
        Some(flag) => truth_of(place, flag),
        None => Ok(false),
    }
}

/// A chain's own fields, where the shapes of its lists are right too, and what it serves.
#[tactic(auto, unfolding(crate::specs::Chains::own_chain_fields, document_entries::specs::Forms::fields))]
pub(crate) fn own_fields(
    place: Place,
    more: bool,
    value: &Value,
) -> Result<(ChainHead, Served), Stop>
    ensures { Answers result (own_chain_fields more place (view value.now)) }
{
    check_chain_fields(place, more, value)?;
    let head = head_of(place, value)?;
    check_lists(place, value)?;
    let calls = flag_field(place, "calls", value)?;
    let locks = flag_field(place, "locks", value)?;
    let _ = short_list(place, "pools", 16, value)?;
    Ok((head, Served { calls, locks }))
}
