//! The document as a whole.
ghost use Rattle.std.specs.Prelude.{◌≡◌};
ghost use Rattle.std.specs.List.{list_any};
ghost use Rattle.serde_json.specs.View.{view, items_view};
ghost use Rattle.document_entries.specs.Answers.{Answers, AnswersAs};
ghost use Rattle.document_entries.specs.Forms.{defaulted, bytes32};
ghost use Rattle.std.specs.Prelude.{codes, false};
ghost use Rattle.locations.specs.declared.grammar.NetworkId.TheVariants.{Polkadot};
ghost use Rattle.network_config.specs.Document.{network_id_form, network_of_text, has_fees, is_relay_entry, chains_list, shapes};

use crate::chains::ChainEntries;
use crate::lists::{list_field, short_list};
use document_entries::{
    Entry, NetworkFault, Place, Section, Stop, bytes32, channel_of, check_fields, number_of,
    read_entries, text_of,
};
use locations::NetworkId;
use network_spec::{ChannelSpec, NetworkSpec};
use serde_json::Value;
use std::alloc::Global;

/// The document as a whole.
pub(crate) const TOP: Place = Place {
    chain: None,
    section: Section::Top,
    index: 0,
};

/// The network of a name, or of the hash of its first block.
fn network_of_text(text: &str) -> Option<NetworkId>
    ensures { result ≡ network_of_text text.now }
{
    match text {
        "Polkadot" => Some(NetworkId::Polkadot),
        "Kusama" => Some(NetworkId::Kusama),
        "Westend" => Some(NetworkId::Westend),
        "Rococo" => Some(NetworkId::Rococo),
        "Wococo" => Some(NetworkId::Wococo),
        _ => bytes32(text.as_bytes()).map(NetworkId::ByGenesis),
    }
}

/// The network.
#[tactic(auto, unfolding(crate::specs::Document::network_id_form))]
fn network_of(place: Place, value: &Value) -> Result<NetworkId, Stop>
    ensures { Answers result (network_id_form place (view value.now)) }
{
    match network_of_text(text_of(place, value)?) {
        Some(network) => Ok(network),
        None => Err(Stop::Fault(NetworkFault::BadValue(place))),
    }
}

/// The network, which may be absent.
fn network_field(place: Place, value: &Value) -> Result<NetworkId, Stop>
    ensures { Answers result
        (defaulted (codes "network") Polkadot network_id_form place (view value.now)) }
{
    match value.get("network") {
        Some(network) => network_of(place, network),
        None => Ok(NetworkId::Polkadot),
    }
}

/// Whether the format has fees.
#[tactic(auto, unfolding(crate::specs::Document::has_fees))]
fn fees_of(place: Place, value: &Value) -> Result<bool, Stop>
    ensures { Answers result (has_fees place (view value.now)) }
{
    Ok(number_of(place, 1, 2, value)? == 2)
}

/// Whether the format has fees; it may be absent.
fn fees_field(place: Place, value: &Value) -> Result<bool, Stop>
    ensures { Answers result (defaulted (codes "format") false has_fees place (view value.now)) }
{
    match value.get("format") {
        Some(format) => fees_of(place, format),
        None => Ok(false),
    }
}

/// Whether the entry is the relay chain's.
fn is_relay_entry(value: &Value) -> bool
    ensures { result ≡ is_relay_entry (view value.now) }
{
    value.is_object() && value.get("para").is_none()
}

/// Whether an entry is the relay chain's.
fn has_relay(items: &[Value]) -> bool
    ensures { result ≡ list_any (λ value. is_relay_entry (view value)) items.now }
{
    items.iter().any(is_relay_entry)
}

/// The entries of chains, which are at most 64 with the relay chain.
#[tactic(auto, using(crate::proofs::Counts::count_is, crate::proofs::Counts::relay_is), unfolding(crate::specs::Document::chains_list))]
fn chains_list(place: Place, value: &Value) -> Result<&[Value], Stop>
    ensures { AnswersAs (λ items. items_view items.now) result
        (chains_list place (view value.now)) }
{
    let items = list_field(place, "chains", value)?;
    let most = if has_relay(items) { 64 } else { 63 };
    if items.len() > most {
        return Err(Stop::Fault(NetworkFault::LimitPassed(place)));
    }
    Ok(items)
}

/// A reader of channels, by whether the format has fees.
#[derive(Clone, Copy)]
struct ChannelEntries {
    fees: bool,
}

impl Entry<ChannelSpec> for ChannelEntries {
    ghost use Rattle.document_entries.specs.Entries.{channel_entry};
    ghost use Rattle.network_config.specs.Chains.{channel_at};

    ghost form = { λ channels index value. channel_entry channels.fees (channel_at index) value };

    fn read(&self, alloc: Global, index: u32, value: &Value) -> Result<ChannelSpec, Stop> {
        let place = Place {
            chain: None,
            section: Section::Channels,
            index,
        };
        channel_of(alloc, place, self.fees, value)
    }
}

/// The network that the values mean, its chains in the document's order.
#[tactic(auto, unfolding(crate::specs::Document::shapes, document_entries::specs::Forms::fields))]
pub(crate) fn shapes(alloc: Global, value: &Value) -> Result<NetworkSpec, Stop>
    ensures { Answers result (shapes (view value.now)) }
{
    check_fields(TOP, &["network", "chains", "channels", "format"], value)?;
    let network = network_field(TOP, value)?;
    let chain_items = chains_list(TOP, value)?;
    let channel_items = short_list(TOP, "channels", 256, value)?;
    let fees = fees_field(TOP, value)?;
    let chains = read_entries(alloc, &ChainEntries { more: fees }, chain_items)?;
    let channels = read_entries(alloc, &ChannelEntries { fees }, channel_items)?;
    Ok(NetworkSpec {
        network,
        chains,
        channels,
    })
}
