//! Texts read as locations. The parts are read in a plain way, which may take more than the texts of the parts; in the end the
//! text of what was read is compared with what was given.

ghost use Rattle.std.specs.Prelude.{◌≡◌, ◌≢◌, ◌≤◌, ◌++◌, ◌==◌, ℕ, List, [], true, length, map, codes, IfOk, IfSome, IsTrue, MatchOption, MatchResult};
ghost use Rattle.std.specs.List.{AllByRecursion, slice_split};
ghost use Rattle.hex.specs.Hex.{encode_lower};
ghost use Rattle.locations.specs.declared.grammar.Junction.{Junction};
ghost use Rattle.locations.specs.declared.grammar.NetworkId.{NetworkId};
ghost use Rattle.locations.specs.declared.relative.Location.{Location};
ghost use Rattle.location_wire.specs.Spelling.{junction};
ghost use Rattle.location_wire.specs.Texts.{lacks, network_name, named, junction_text, IsJunction, IsLocation, IsTextOf};
ghost use Rattle.location_wire.specs.TextFaults.{IsTextCause};

use crate::parts::take_junction;
use crate::text::location_text;
use hex::{FromHex, FromHexError};
use locations::{Junction, Junctions, Location, NetworkId};
use scale_codec::Cursor;
use std::alloc::{AllocError, Global};
use thiserror::Error;

/// Why a text is read as no location.
#[derive(Clone, Copy, Debug, PartialEq, Eq, Error)]
pub enum TextFault {
    /// It is the text of no location.
    #[error("not the text of a location")]
    BadText,
    /// There was no memory.
    #[error("out of memory")]
    Memory,
}

impl From<AllocError> for TextFault {
    ghost use Rattle.std.specs.Prelude.{◌≡◌};
    ghost use Rattle.location_wire.specs.declared.text_reading.TextFault.TheVariants.{Memory};

    ghost from_gives = { λ _ fault. fault ≡ Memory };

    fn from(_: AllocError) -> TextFault {
        TextFault::Memory
    }
}

/// The parts of a text between its slashes.
fn parts_of(alloc: Global, text: &str) -> Result<Vec<&str>, AllocError>
    ensures { IfOk result (λ parts. map (λ x. x.now) parts.items
        ≡ slice_split (λ b. b == 47) text.now) }
{
    text.split('/').collect(alloc)
}

/// What is before an opening parenthesis, and between it and a closing one at the end.
fn name_and_inside(part: &str) -> Option<(&str, &str)>
    ensures { (name inside : List ℕ) → IsTrue (lacks 40 name) → part.now
        ≡ name ++ codes "(" ++ inside ++ codes ")"
        → MatchOption result ⊥ (λ x. (x.0.now ≡ name) × (x.1.now ≡ inside)) }
{
    let (name, rest) = part.split_once('(')?;
    let inside = rest.strip_suffix(')')?;
    Some((name, inside))
}

/// The junction that the bytes begin with.
fn front_junction(bytes: &[u8]) -> Option<Junction>
    ensures found { (j : Junction) → IsJunction j → bytes.now ≡ junction j → result ≡ Some j }
    ensures fits { IfSome result IsJunction }
{
    take_junction(&mut Cursor::new(bytes)).ok()
}

/// The junction that hex digits spell.
fn spelled_junction(alloc: Global, digits: &str) -> Result<Option<Junction>, AllocError>
    ensures found { IfOk result (λ o. (j : Junction) → IsJunction j → digits.now
        ≡ encode_lower (junction j) → o ≡ Some j) }
    ensures fits { IfOk result (λ o. IfSome o IsJunction) }
{
    match hex::decode(alloc, digits) {
        Ok(bytes) => Ok(front_junction(bytes.as_slice())),
        Err(fault) => match fault {
            FromHexError::OutOfMemory => Err(AllocError),
            _ => Ok(None),
        },
    }
}

fn network_of_name(name: &str) -> Option<NetworkId>
    ensures found { (net : NetworkId) → network_name net ≡ Some name.now → result ≡ Some net }
    ensures named { IfSome result (λ net. network_name net ≡ Some name.now) }
{
    match name {
        "Polkadot" => Some(NetworkId::Polkadot),
        "Kusama" => Some(NetworkId::Kusama),
        "Westend" => Some(NetworkId::Westend),
        "Rococo" => Some(NetworkId::Rococo),
        "Wococo" => Some(NetworkId::Wococo),
        _ => None,
    }
}

fn global_of_text(inside: &str) -> Option<Junction>
    ensures found { (j : Junction)
        → IsJunction j → named j ≡ Some (codes "GlobalConsensus", inside.now) → result ≡ Some j }
    ensures fits { IfSome result IsJunction }
{
    let network = network_of_name(inside)?;
    Some(Junction::GlobalConsensus(network))
}

/// What follows the `0x` at the front.
fn behind_0x(text: &str) -> Option<&str>
    ensures { MatchOption result ((rest : List ℕ) → text.now ≢ codes "0x" ++ rest)
        (λ x. text.now ≡ codes "0x" ++ x.now) }
{
    text.strip_prefix("0x")
}

fn parachain_of_text(inside: &str) -> Option<Junction>
    ensures found { (j : Junction)
        → IsJunction j → named j ≡ Some (codes "Parachain", inside.now) → result ≡ Some j }
    ensures fits { IfSome result IsJunction }
{
    let id = inside.parse().ok()?;
    Some(Junction::Parachain(id))
}

fn pallet_of_text(inside: &str) -> Option<Junction>
    ensures found { (j : Junction)
        → IsJunction j → named j ≡ Some (codes "PalletInstance", inside.now) → result ≡ Some j }
    ensures fits { IfSome result IsJunction }
{
    let index = inside.parse().ok()?;
    Some(Junction::PalletInstance(index))
}

fn general_index_of_text(inside: &str) -> Option<Junction>
    ensures found { (j : Junction)
        → IsJunction j → named j ≡ Some (codes "GeneralIndex", inside.now) → result ≡ Some j }
    ensures fits { IfSome result IsJunction }
{
    let index = inside.parse().ok()?;
    Some(Junction::GeneralIndex(index))
}

fn account_of_text(inside: &str) -> Option<Junction>
    ensures found { (j : Junction)
        → IsJunction j → named j ≡ Some (codes "AccountId32", inside.now) → result ≡ Some j }
    ensures fits { IfSome result IsJunction }
{
    let digits = behind_0x(inside)?;
    let id = <[u8; 32]>::from_hex(digits).ok()?;
    Some(Junction::AccountId32 { network: None, id })
}

/// The junction of a name and what its parentheses hold.
fn named_junction(name: &str, inside: &str) -> Option<Junction>
    ensures found { (j : Junction)
        → IsJunction j → named j ≡ Some (name.now, inside.now) → result ≡ Some j }
    ensures fits { IfSome result IsJunction }
{
    match name {
        "Parachain" => parachain_of_text(inside),
        "PalletInstance" => pallet_of_text(inside),
        "GeneralIndex" => general_index_of_text(inside),
        "AccountId32" => account_of_text(inside),
        "GlobalConsensus" => global_of_text(inside),
        _ => None,
    }
}

fn junction_of_text(alloc: Global, part: &str) -> Result<Option<Junction>, AllocError>
    ensures found { IfOk result (λ o. (j : Junction) → IsJunction j → part.now ≡ junction_text j → o
        ≡ Some j) }
    ensures fits { IfOk result (λ o. IfSome o IsJunction) }
{
    if let Some(digits) = behind_0x(part) {
        return spelled_junction(alloc, digits);
    }
    let Some((name, inside)) = name_and_inside(part) else {
        return Ok(None);
    };
    Ok(named_junction(name, inside))
}

/// Reads a junction for each part, at most eight, into an empty list. False where a part is of none, or there are more; nothing is
/// then said of the list.
fn fill_interior(
    alloc: Global,
    parts: &[&str],
    junctions: &mut Junctions,
) -> Result<bool, AllocError>
    requires { junctions.old ≡ [] }
    ensures found { IfOk result (λ filled. (js : List Junction) → length js ≤ 8
        → AllByRecursion IsJunction js → map (λ x. x.now) parts.now ≡ map junction_text js
        → (filled ≡ true) × (junctions.new ≡ js)) }
    ensures fits { IfOk result (λ filled. IsTrue filled → (length junctions.new ≤ 8)
        × AllByRecursion IsJunction junctions.new) }
{
    for part in parts {
        let Some(junction) = junction_of_text(alloc, part)? else {
            return Ok(false);
        };
        let Ok(()) = junctions.push(junction) else {
            return Ok(false);
        };
    }
    Ok(true)
}

/// Reads the only location that the text can be of into one with no junctions. False where there is none; nothing is then said of it.
fn fill_location(alloc: Global, text: &str, location: &mut Location) -> Result<bool, AllocError>
    requires { location.old.interior ≡ [] }
    ensures found { IfOk result (λ filled. (l : Location) → IsTextOf l text.now
        → (filled ≡ true) × (location.new ≡ l)) }
    ensures fits { IfOk result (λ filled. IsTrue filled → IsLocation location.new) }
{
    let parts = parts_of(alloc, text)?;
    let Some((first, steps)) = parts.as_slice().split_first() else {
        return Ok(false);
    };
    let Ok(parents) = first.parse::<u8>() else {
        return Ok(false);
    };
    location.parents = parents;
    let filled = fill_interior(alloc, steps, &mut location.interior)?;
    Ok(filled)
}

/// Reads the text of a location, as `location_text` writes it and no other, as `1/Parachain(2000)`, into one with no junctions. `BadText`
/// comes exactly where the text is that of no location; after an `Err` nothing is said of what the location is.
pub fn fill_location_from_text(
    alloc: Global,
    s: &str,
    location: &mut Location,
) -> Result<(), TextFault>
    requires { location.old.interior ≡ [] }
    ensures { MatchResult result (λ _. IsTextOf location.new s.now) (IsTextCause s.now) }
{
    if !fill_location(alloc, s, location)? {
        return Err(TextFault::BadText);
    }
    let text = location_text(alloc, location)?;
    if text.as_str() != s {
        return Err(TextFault::BadText);
    }
    Ok(())
}

/// Reads the text of a location, as `location_text` writes it and no other, as `1/Parachain(2000)`. `BadText` comes exactly where
/// the text is that of no location.
pub fn read_location_text(alloc: Global, s: &str) -> Result<Location, TextFault>
    ensures { MatchResult result (λ l. IsTextOf l s.now) (IsTextCause s.now) }
{
    let mut location = Location::here();
    fill_location_from_text(alloc, s, &mut location)?;
    Ok(location)
}
