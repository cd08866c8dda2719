//! The readers that the public ones call. Where they leave the cursor after a refusal isn't said.

ghost use Rattle.std.specs.Prelude.{◌≡◌, [], ◌≤◌, ◌^◌};
ghost use Rattle.locations.specs.declared.grammar.Junction.TheVariants.{Parachain, AccountId32, AccountIndex64, AccountKey20, PalletInstance, GeneralIndex, GeneralKey, Plurality, GlobalConsensus};
ghost use Rattle.scale_codec.specs.Reading.{u8_at, below_at, take_at, made1, made2, optional_at, repeated};
ghost use Rattle.scale_codec.specs.Answers.{Got, Filled};
ghost use Rattle.location_wire.specs.Reading.{network_at, body_at, body_part_at, junction_at, junctions_at, location_at};

// What is read most, a few numbers, is compiled into its caller; what is longer and rarer isn't, so that its locals cost nothing there.

use locations::{BodyId, BodyPart, Junction, Junctions, Location, NetworkId};
use scale_codec::{Cursor, NoSpelling};

/// The network at the front.
#[tactic(auto, unfolding(crate::specs::Reading::network_at))]
#[inline(never)]
pub fn take_network(c: &mut Cursor<'_>) -> Result<NetworkId, NoSpelling>
    ensures { Got result (network_at c.old) c.new }
{
    match c.u8()? {
        0 => Ok(NetworkId::ByGenesis(c.take_array()?)),
        1 => {
            let block_number = c.u64_le()?;
            let block_hash = c.take_array()?;
            Ok(NetworkId::ByFork {
                block_number,
                block_hash,
            })
        }
        2 => Ok(NetworkId::Polkadot),
        3 => Ok(NetworkId::Kusama),
        4 => Ok(NetworkId::Westend),
        5 => Ok(NetworkId::Rococo),
        6 => Ok(NetworkId::Wococo),
        7 => {
            let chain_id = c.compact_u64()?;
            Ok(NetworkId::Ethereum { chain_id })
        }
        8 => Ok(NetworkId::BitcoinCore),
        9 => Ok(NetworkId::BitcoinCash),
        _ => Err(NoSpelling),
    }
}

/// A network that may be left out.
fn take_optional_network(c: &mut Cursor<'_>) -> Result<Option<NetworkId>, NoSpelling>
    ensures { Got result (optional_at network_at c.old) c.new }
{
    match c.u8()? {
        0 => Ok(None),
        1 => Ok(Some(take_network(c)?)),
        _ => Err(NoSpelling),
    }
}

#[tactic(auto, unfolding(crate::specs::Reading::body_at))]
fn take_body(c: &mut Cursor<'_>) -> Result<BodyId, NoSpelling>
    ensures { Got result (body_at c.old) c.new }
{
    match c.u8()? {
        0 => Ok(BodyId::Unit),
        1 => Ok(BodyId::Moniker(c.take_array()?)),
        2 => Ok(BodyId::Index(c.compact_u32()?)),
        3 => Ok(BodyId::Executive),
        4 => Ok(BodyId::Technical),
        5 => Ok(BodyId::Legislative),
        6 => Ok(BodyId::Judicial),
        7 => Ok(BodyId::Defense),
        8 => Ok(BodyId::Administration),
        9 => Ok(BodyId::Treasury),
        _ => Err(NoSpelling),
    }
}

#[tactic(auto, unfolding(crate::specs::Reading::body_part_at))]
fn take_part(c: &mut Cursor<'_>) -> Result<BodyPart, NoSpelling>
    ensures { Got result (body_part_at c.old) c.new }
{
    match c.u8()? {
        0 => Ok(BodyPart::Voice),
        1 => {
            let count = c.compact_u32()?;
            Ok(BodyPart::Members { count })
        }
        2 => {
            let nom = c.compact_u32()?;
            let denom = c.compact_u32()?;
            Ok(BodyPart::Fraction { nom, denom })
        }
        3 => {
            let nom = c.compact_u32()?;
            let denom = c.compact_u32()?;
            Ok(BodyPart::AtLeastProportion { nom, denom })
        }
        4 => {
            let nom = c.compact_u32()?;
            let denom = c.compact_u32()?;
            Ok(BodyPart::MoreThanProportion { nom, denom })
        }
        _ => Err(NoSpelling),
    }
}

/// A parachain.
fn fill_parachain(c: &mut Cursor<'_>, slot: &mut Junction) -> Result<(), NoSpelling>
    ensures { Filled result (made1 (below_at (2 ^ 32)) Parachain c.old) slot.new c.new }
{
    *slot = Junction::Parachain(c.compact_u32()?);
    Ok(())
}

/// An account of 32 bytes, after its network.
#[inline(never)]
fn fill_account32(c: &mut Cursor<'_>, slot: &mut Junction) -> Result<(), NoSpelling>
    ensures { Filled result (made2 (optional_at network_at) (take_at 32) AccountId32 c.old) slot.new
        c.new }
{
    let network = take_optional_network(c)?;
    let id = c.take_array()?;
    *slot = Junction::AccountId32 { network, id };
    Ok(())
}

/// An account by its number, after its network.
#[inline(never)]
fn fill_account_index(c: &mut Cursor<'_>, slot: &mut Junction) -> Result<(), NoSpelling>
    ensures { Filled result (made2 (optional_at network_at) (below_at (2 ^ 64)) AccountIndex64
        c.old) slot.new c.new }
{
    let network = take_optional_network(c)?;
    let index = c.compact_u64()?;
    *slot = Junction::AccountIndex64 { network, index };
    Ok(())
}

/// An account of 20 bytes, after its network.
#[inline(never)]
fn fill_account20(c: &mut Cursor<'_>, slot: &mut Junction) -> Result<(), NoSpelling>
    ensures { Filled result (made2 (optional_at network_at) (take_at 20) AccountKey20 c.old)
        slot.new c.new }
{
    let network = take_optional_network(c)?;
    let key = c.take_array()?;
    *slot = Junction::AccountKey20 { network, key };
    Ok(())
}

/// A pallet by its number.
fn fill_pallet(c: &mut Cursor<'_>, slot: &mut Junction) -> Result<(), NoSpelling>
    ensures { Filled result (made1 u8_at PalletInstance c.old) slot.new c.new }
{
    *slot = Junction::PalletInstance(c.u8()?);
    Ok(())
}

/// An index.
fn fill_general_index(c: &mut Cursor<'_>, slot: &mut Junction) -> Result<(), NoSpelling>
    ensures { Filled result (made1 (below_at (2 ^ 128)) GeneralIndex c.old) slot.new c.new }
{
    *slot = Junction::GeneralIndex(c.compact_u128()?);
    Ok(())
}

/// A key of 32 bytes, after its length.
#[inline(never)]
fn fill_general_key(c: &mut Cursor<'_>, slot: &mut Junction) -> Result<(), NoSpelling>
    ensures { Filled result (made2 u8_at (take_at 32) GeneralKey c.old) slot.new c.new }
{
    let length = c.u8()?;
    let key = c.take_array()?;
    *slot = Junction::GeneralKey { length, key };
    Ok(())
}

/// A body, and the part of it.
#[inline(never)]
fn fill_plurality(c: &mut Cursor<'_>, slot: &mut Junction) -> Result<(), NoSpelling>
    ensures { Filled result (made2 body_at body_part_at Plurality c.old) slot.new c.new }
{
    let id = take_body(c)?;
    let part = take_part(c)?;
    *slot = Junction::Plurality { id, part };
    Ok(())
}

/// A network.
#[inline(never)]
fn fill_consensus(c: &mut Cursor<'_>, slot: &mut Junction) -> Result<(), NoSpelling>
    ensures { Filled result (made1 network_at GlobalConsensus c.old) slot.new c.new }
{
    *slot = Junction::GlobalConsensus(take_network(c)?);
    Ok(())
}

/// The junction at the front, into its slot.
#[tactic(auto, unfolding(crate::specs::Reading::junction_at))]
#[inline(always)]
fn fill_junction(c: &mut Cursor<'_>, slot: &mut Junction) -> Result<(), NoSpelling>
    ensures { Filled result (junction_at c.old) slot.new c.new }
{
    match c.u8()? {
        0 => fill_parachain(c, slot),
        1 => fill_account32(c, slot),
        2 => fill_account_index(c, slot),
        3 => fill_account20(c, slot),
        4 => fill_pallet(c, slot),
        5 => fill_general_index(c, slot),
        6 => fill_general_key(c, slot),
        7 => {
            *slot = Junction::OnlyChild;
            Ok(())
        }
        8 => fill_plurality(c, slot),
        9 => fill_consensus(c, slot),
        _ => Err(NoSpelling),
    }
}

/// The junction at the front.
pub fn take_junction(c: &mut Cursor<'_>) -> Result<Junction, NoSpelling>
    ensures { Got result (junction_at c.old) c.new }
{
    let mut junction = Junction::OnlyChild;
    fill_junction(c, &mut junction)?;
    Ok(junction)
}

/// So many junctions, at most eight, into an empty list. Each is read where it will be.
#[inline(always)]
fn fill_several(c: &mut Cursor<'_>, count: u8, junctions: &mut Junctions) -> Result<(), NoSpelling>
    requires few { count ≤ 8 }
    requires empty { junctions.old ≡ [] }
    ensures { Filled result (repeated junction_at count c.old) junctions.new c.new }
{
    for i in 0..count {
        junctions.push(Junction::Parachain(0)).unwrap();
        fill_junction(c, &mut junctions.places()[i as usize])?;
    }
    Ok(())
}

/// The junctions after their number, into an empty list.
#[tactic(auto, unfolding(crate::specs::Reading::junctions_at))]
#[inline(always)]
pub fn fill_junctions(c: &mut Cursor<'_>, junctions: &mut Junctions) -> Result<(), NoSpelling>
    requires { junctions.old ≡ [] }
    ensures { Filled result (junctions_at c.old) junctions.new c.new }
{
    let count = c.u8()?;
    if count > 8 {
        return Err(NoSpelling);
    }
    fill_several(c, count, junctions)
}

/// The location, into one with no junctions.
#[tactic(auto, unfolding(crate::specs::Reading::location_at))]
#[inline(always)]
pub fn fill_location(c: &mut Cursor<'_>, place: &mut Location) -> Result<(), NoSpelling>
    requires { place.old.interior ≡ [] }
    ensures { Filled result (location_at c.old) place.new c.new }
{
    place.parents = c.u8()?;
    fill_junctions(c, &mut place.interior)
}

/// The junctions after their number.
pub(crate) fn take_junctions(c: &mut Cursor<'_>) -> Result<Junctions, NoSpelling>
    ensures { Got result (junctions_at c.old) c.new }
{
    let mut junctions = Junctions::empty();
    fill_junctions(c, &mut junctions)?;
    Ok(junctions)
}

/// The location at the front.
pub fn take_location(c: &mut Cursor<'_>) -> Result<Location, NoSpelling>
    ensures { Got result (location_at c.old) c.new }
{
    let mut place = Location {
        parents: 0,
        interior: Junctions::empty(),
    };
    fill_location(c, &mut place)?;
    Ok(place)
}
