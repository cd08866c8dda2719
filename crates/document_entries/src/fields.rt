//! Objects and their fields.
ghost use Rattle.std.specs.Prelude.{map, bytes_eq};
ghost use Rattle.std.specs.List.{list_any, list_all};
ghost use Rattle.std.specs.Prelude.{◌≡◌, string_bytes};
ghost use Rattle.std.specs.BTreeMap.{keys};
ghost use Rattle.serde_json.specs.View.{view};
ghost use Rattle.document_entries.specs.Answers.{Answers, AnswersAs};
ghost use Rattle.document_entries.specs.Forms.{fields, required_field};

use crate::{NetworkFault, Place, Stop};
use serde_json::{Map, Value};

/// Whether the name is one of these.
fn is_known(names: &[&str], name: &str) -> bool
    ensures { result ≡ list_any (λ known. bytes_eq known.now name.now) names.now }
{
    names.iter().any(|known| *known == name)
}

/// Whether all names of the members are of these.
fn are_known(names: &[&str], members: &Map<String, Value>) -> bool
    ensures { result ≡ list_all (λ name. list_any (λ known. bytes_eq known.now (string_bytes name))
        names.now) (keys members.now) }
{
    members.keys().all(|name| is_known(names, name.as_str()))
}

#[tactic(auto, unfolding(crate::specs::Forms::fields))]
/// Refuses a value that is no object, and an object with a field that isn't one of these.
pub fn check_fields(place: Place, names: &[&str], value: &Value) -> Result<(), Stop>
    ensures { Answers result (fields (map (λ name. name.now) names.now) place (view value.now)) }
{
    let Some(members) = value.as_object() else {
        return Err(Stop::Fault(NetworkFault::WrongKind(place)));
    };
    if !are_known(names, members) {
        return Err(Stop::Fault(NetworkFault::UnknownField(place)));
    }
    Ok(())
}

/// The value of a field that has to be there.
#[tactic(auto, unfolding(crate::specs::Forms::required_field))]
pub(crate) fn needed<'a>(place: Place, name: &str, value: &'a Value) -> Result<&'a Value, Stop>
    ensures { AnswersAs (λ found. view found.now) result
        (required_field name.now place (view value.now)) }
{
    match value.get(name) {
        Some(found) => Ok(found),
        None => Err(Stop::Fault(NetworkFault::MissingField(place))),
    }
}
