//! Locations, paths, junctions and networks.

ghost use Rattle.std.specs.Prelude.{◌≡◌, ◌++◌, ◌∷◌, [], List, ℕ, map, true, IfOk, IfSome, MatchOption, Some};
ghost use Rattle.scale_codec.specs.Spelling.{optional, joined};
ghost use Rattle.locations.specs.declared.grammar.NetworkId.{NetworkId};
ghost use Rattle.locations.specs.declared.grammar.Junction.{Junction};
ghost use Rattle.locations.specs.declared.grammar.Junction.TheVariants.{GlobalConsensus};
ghost use Rattle.locations.specs.declared.relative.Location.{Location};
ghost use Rattle.location_wire.specs.Spelling.{network, FitsNetwork, junction, FitsJunction, junctions, FitsJunctions, location, FitsLocation};
ghost use Rattle.location_wire.specs.Texts.{IsLocation, path_step_text, path_text, location_text};
ghost use Rattle.message_text.specs.Words.{place_text, junction_path_text, network_text};
ghost use Rattle.tree_reading.specs.Puts.{AreBytes, PutsWords};

use location_wire::{
    TextFault, law_of_one_location, read_location_text, write_junction, write_junctions,
    write_location, write_network_id,
};
use locations::{Junction, Location};
use scale_codec::Out;
use std::alloc::{AllocError, Global};

/// The location that a text is of.
fn location_of(alloc: Global, text: &str) -> Result<Option<Location>, AllocError>
    ensures { IfOk result (λ o. (l : Location) → IsLocation l → text.now ≡ location_text l
        → o ≡ Some l) }
{
    // For the prover alone: which location it is.
    law_of_one_location();
    match read_location_text(alloc, text) {
        Ok(place) => Ok(Some(place)),
        Err(TextFault::BadText) => Ok(None),
        Err(TextFault::Memory) => Err(AllocError),
    }
}

/// Appends a location.
pub(crate) fn put_location(alloc: Global, out: &mut Out, text: &str) -> Result<bool, AllocError>
    ensures { PutsWords FitsLocation location_text location text.now result out.old out.new }
{
    let Some(place) = location_of(alloc, text)? else {
        return Ok(false);
    };
    write_location(out, &place)?;
    Ok(true)
}

/// Appends a location that may be none.
fn put_some_place(alloc: Global, out: &mut Out, text: &str) -> Result<bool, AllocError>
    ensures { PutsWords FitsLocation location_text (λ l. 1 ∷ location l) text.now result out.old
        out.new }
{
    out.put_u8(1)?;
    put_location(alloc, out, text)
}

/// Appends a location, or none.
pub(crate) fn put_place(alloc: Global, out: &mut Out, text: &str) -> Result<bool, AllocError>
    ensures { PutsWords (λ o. IfSome o FitsLocation) place_text (optional location) text.now result
        out.old out.new }
{
    match text {
        "none" => {
            out.put_u8(0)?;
            Ok(true)
        }
        _ => put_some_place(alloc, out, text),
    }
}

/// The location that a path of some junctions leads to.
fn end_of(alloc: Global, text: &str) -> Result<Option<Location>, AllocError>
    ensures { IfOk result (λ o. (l : Location) → IsLocation l → l.parents ≡ 0
        → text.now ≡ joined (map path_step_text l.interior) → o ≡ Some l) }
{
    let whole = format!(in alloc; "0{text}")?;
    location_of(alloc, whole.as_str())
}

/// The location that a path leads to.
fn path_of(alloc: Global, text: &str) -> Result<Option<Location>, AllocError>
    ensures { IfOk result (λ o. (path : List Junction) → FitsJunctions path
        → AreBytes (junctions path) → text.now ≡ path_text path
        → MatchOption o ⊥ (λ l. l.interior ≡ path)) }
{
    match text {
        "/" => Ok(Some(Location::here())),
        _ => end_of(alloc, text),
    }
}

/// Appends a path.
pub(crate) fn put_path(alloc: Global, out: &mut Out, text: &str) -> Result<bool, AllocError>
    ensures { PutsWords FitsJunctions path_text junctions text.now result out.old out.new }
{
    let Some(place) = path_of(alloc, text)? else {
        return Ok(false);
    };
    write_junctions(out, &place.interior)?;
    Ok(true)
}

/// The junction that a path is.
fn only_one(items: &[Junction]) -> Option<&Junction>
    ensures { (j : Junction) → items.now ≡ j ∷ [] → MatchOption result ⊥ (λ x. x.now ≡ j) }
{
    match items {
        [junction] => Some(junction),
        _ => None,
    }
}

/// Appends the junction that a path is.
pub(crate) fn put_junction(alloc: Global, out: &mut Out, text: &str) -> Result<bool, AllocError>
    ensures { PutsWords FitsJunction junction_path_text junction text.now result out.old out.new }
{
    let Some(place) = path_of(alloc, text)? else {
        return Ok(false);
    };
    let Some(junction) = only_one(place.interior.items()) else {
        return Ok(false);
    };
    write_junction(out, junction)?;
    Ok(true)
}

/// Appends the network that a junction names.
fn put_network_of(out: &mut Out, junction: &Junction) -> Result<bool, AllocError>
    ensures { IfOk result (λ done. (net : NetworkId) → junction.now ≡ GlobalConsensus net
        → (done ≡ true) × (out.new ≡ out.old ++ network net)) }
{
    match junction {
        Junction::GlobalConsensus(network) => {
            write_network_id(out, network)?;
            Ok(true)
        }
        _ => Ok(false),
    }
}

/// Appends the network that a path names.
pub(crate) fn put_network(alloc: Global, out: &mut Out, text: &str) -> Result<bool, AllocError>
    ensures { PutsWords FitsNetwork network_text network text.now result out.old out.new }
{
    let Some(place) = path_of(alloc, text)? else {
        return Ok(false);
    };
    let Some(junction) = only_one(place.interior.items()) else {
        return Ok(false);
    };
    put_network_of(out, junction)
}
