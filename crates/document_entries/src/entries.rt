//! Lists.
ghost use Rattle.std.specs.Prelude.{◌≡◌};
ghost use Rattle.std.specs.List.{list_all};
ghost use Rattle.serde_json.specs.View.{view, items_view};
ghost use Rattle.document_entries.specs.Answers.{Answers, AnswersAs};
ghost use Rattle.document_entries.specs.Forms as forms;
ghost use Rattle.document_entries.specs.Forms.{entries, list, is_whole, is_text, passing, each, chain, pair};

use crate::names::{chain_of, is_chain_kind};
use crate::numbers::whole_of;
use crate::{NetworkFault, Place, Stop};
use chain_ids::ChainId;
use plain_lists::Listed;
use serde_json::Value;
use std::alloc::Global;

/// A reader of the entries of a list.
pub trait Entry<T> {
    ghost use Rattle.std.specs.Prelude.{ℕ, Result};
    ghost use Rattle.serde_json.specs.Data.{Data};
    ghost use Rattle.document_entries.specs.declared.fault.NetworkFault.{NetworkFault};

    /// What an entry means by its index, or its first fault.
    ghost form: { Self → ℕ → Data → Result T NetworkFault };

    /// Reads the entry at the index.
    fn read(&self, alloc: Global, index: u32, value: &Value) -> Result<T, Stop>
        ensures { Answers result (form self.now index (view value.now)) };
}

/// Reads each entry of a list.
pub fn read_entries<T: Drop, E: Entry<T>>(
    alloc: Global,
    entry: &E,
    items: &[Value],
) -> Result<Listed<T>, Stop>
    ensures { Answers result (entries (E.form entry.now) 0 (items_view items.now)) }
{
    let mut list = Vec::with_capacity(alloc, items.len()).map_err(|_| Stop::Memory)?;
    let mut index: u32 = 0;
    for value in items {
        // There is room: a push that could fail would hand back what is large.
        list.push_reserved(entry.read(alloc, index, value)?);
        index = index.saturating_add(1);
    }
    Ok(Listed::from_vec(list))
}

/// The elements of a list.
#[tactic(auto, unfolding(crate::specs::Forms::list))]
pub fn list_of(place: Place, value: &Value) -> Result<&[Value], Stop>
    ensures { AnswersAs (λ items. items_view items.now) result (list place (view value.now)) }
{
    match value.as_array() {
        Some(items) => Ok(items.as_slice()),
        None => Err(Stop::Fault(NetworkFault::WrongKind(place))),
    }
}

/// Whether all elements are whole numbers.
fn are_whole(items: &[Value]) -> bool
    ensures { result ≡ list_all (λ value. is_whole (view value)) items.now }
{
    items.iter().all(|value| value.as_u64().is_some())
}

/// Whether all elements are texts.
fn are_texts(items: &[Value]) -> bool
    ensures { result ≡ list_all (λ value. is_text (view value)) items.now }
{
    items.iter().all(|value| value.as_str().is_some())
}

/// Whether all elements are texts or whole numbers.
fn are_chain_kinds(items: &[Value]) -> bool
    ensures { result ≡ list_all (λ value. forms.is_chain_kind (view value)) items.now }
{
    items.iter().all(is_chain_kind)
}

/// The elements of a list of whole numbers.
#[tactic(auto, unfolding(crate::specs::Forms::passing))]
fn wholes_of(place: Place, value: &Value) -> Result<&[Value], Stop>
    ensures { AnswersAs (λ items. items_view items.now) result
        (passing is_whole place (view value.now)) }
{
    let items = list_of(place, value)?;
    if !are_whole(items) {
        return Err(Stop::Fault(NetworkFault::WrongKind(place)));
    }
    Ok(items)
}

/// The elements of a list of texts.
#[tactic(auto, unfolding(crate::specs::Forms::passing))]
pub(crate) fn texts_of(place: Place, value: &Value) -> Result<&[Value], Stop>
    ensures { AnswersAs (λ items. items_view items.now) result
        (passing is_text place (view value.now)) }
{
    let items = list_of(place, value)?;
    if !are_texts(items) {
        return Err(Stop::Fault(NetworkFault::WrongKind(place)));
    }
    Ok(items)
}

/// The elements of a list of what may be chains.
#[tactic(auto, unfolding(crate::specs::Forms::passing))]
pub(crate) fn chain_kinds_of(place: Place, value: &Value) -> Result<&[Value], Stop>
    ensures { AnswersAs (λ items. items_view items.now) result
        (passing forms.is_chain_kind place (view value.now)) }
{
    let items = list_of(place, value)?;
    if !are_chain_kinds(items) {
        return Err(Stop::Fault(NetworkFault::WrongKind(place)));
    }
    Ok(items)
}

/// A reader of chains at one position.
#[derive(Clone, Copy)]
pub struct ChainsAt {
    /// The position.
    pub place: Place,
}

impl Entry<ChainId> for ChainsAt {
    ghost use Rattle.document_entries.specs.Forms.{chain};

    ghost form = { λ at _ value. chain at.place value };

    fn read(&self, _alloc: Global, _index: u32, value: &Value) -> Result<ChainId, Stop> {
        chain_of(self.place, value)
    }
}

/// A list of chains.
pub(crate) fn chains_of(alloc: Global, place: Place, value: &Value) -> Result<Listed<ChainId>, Stop>
    ensures { Answers result (each forms.is_chain_kind chain place (view value.now)) }
{
    let items = chain_kinds_of(place, value)?;
    read_entries(alloc, &ChainsAt { place }, items)
}

/// A list of two whole numbers.
#[tactic(auto, unfolding(crate::specs::Forms::pair))]
pub fn pair_of(place: Place, value: &Value) -> Result<(u64, u64), Stop>
    ensures { Answers result (pair place (view value.now)) }
{
    let items = wholes_of(place, value)?;
    let [first, second] = items else {
        return Err(Stop::Fault(NetworkFault::BadValue(place)));
    };
    Ok((whole_of(place, first)?, whole_of(place, second)?))
}
