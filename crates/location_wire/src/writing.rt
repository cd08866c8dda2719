//! Writes of locations and their parts: each appends the one spelling.

ghost use Rattle.std.specs.Prelude.{◌≡◌, ◌∷◌, ◌++◌, IfSome, ⊤};
ghost use Rattle.scale_codec.specs.Spelling.{compact, optional};
ghost use Rattle.scale_codec.specs.Answers.{Appends, Puts, IsWritten};
ghost use Rattle.location_wire.specs.Spelling.{network, FitsNetwork, body, FitsBody, part, FitsPart, junction, FitsJunction, junctions, FitsJunctions, location, FitsLocation};

use locations::{BodyId, BodyPart, Junction, Junctions, Location, NetworkId};
use scale_codec::{Draft, Out};
use std::alloc::AllocError;

/// Appends the network.
pub fn put_network(o: &mut Draft, net: &NetworkId) -> Result<(), AllocError>
    ensures { Puts network FitsNetwork net.now result o.old o.new }
{
    match net {
        NetworkId::ByGenesis(hash) => {
            o.put_u8(0)?;
            o.put_bytes(hash)
        }
        NetworkId::ByFork {
            block_number,
            block_hash,
        } => {
            o.put_u8(1)?;
            o.put_u64(*block_number)?;
            o.put_bytes(block_hash)
        }
        NetworkId::Polkadot => o.put_u8(2),
        NetworkId::Kusama => o.put_u8(3),
        NetworkId::Westend => o.put_u8(4),
        NetworkId::Rococo => o.put_u8(5),
        NetworkId::Wococo => o.put_u8(6),
        NetworkId::Ethereum { chain_id } => {
            o.put_u8(7)?;
            o.put_compact(*chain_id as u128)
        }
        NetworkId::BitcoinCore => o.put_u8(8),
        NetworkId::BitcoinCash => o.put_u8(9),
    }
}

fn put_optional_network(o: &mut Draft, net: &Option<NetworkId>) -> Result<(), AllocError>
    ensures { Puts (optional network) (λ n. IfSome n FitsNetwork) net.now result o.old o.new }
{
    match net {
        None => o.put_u8(0),
        Some(network) => {
            o.put_u8(1)?;
            put_network(o, network)
        }
    }
}

fn put_body(o: &mut Draft, id: &BodyId) -> Result<(), AllocError>
    ensures { Puts body FitsBody id.now result o.old o.new }
{
    match id {
        BodyId::Unit => o.put_u8(0),
        BodyId::Moniker(name) => {
            o.put_u8(1)?;
            o.put_bytes(name)
        }
        BodyId::Index(index) => {
            o.put_u8(2)?;
            o.put_compact(*index as u128)
        }
        BodyId::Executive => o.put_u8(3),
        BodyId::Technical => o.put_u8(4),
        BodyId::Legislative => o.put_u8(5),
        BodyId::Judicial => o.put_u8(6),
        BodyId::Defense => o.put_u8(7),
        BodyId::Administration => o.put_u8(8),
        BodyId::Treasury => o.put_u8(9),
    }
}

/// The index of a part of a body, and its two numbers.
fn put_share(o: &mut Draft, index: u8, nom: u32, denom: u32) -> Result<(), AllocError>
    ensures { Appends result o.old o.new (index ∷ compact nom ++ compact denom) ⊤ }
{
    o.put_u8(index)?;
    o.put_compact(nom as u128)?;
    o.put_compact(denom as u128)
}

fn put_part(o: &mut Draft, share: &BodyPart) -> Result<(), AllocError>
    ensures { Puts part FitsPart share.now result o.old o.new }
{
    match share {
        BodyPart::Voice => o.put_u8(0),
        BodyPart::Members { count } => {
            o.put_u8(1)?;
            o.put_compact(*count as u128)
        }
        BodyPart::Fraction { nom, denom } => put_share(o, 2, *nom, *denom),
        BodyPart::AtLeastProportion { nom, denom } => put_share(o, 3, *nom, *denom),
        BodyPart::MoreThanProportion { nom, denom } => put_share(o, 4, *nom, *denom),
    }
}

/// Appends the junction.
#[tactic(auto, unfolding(crate::specs::Spelling::junction))]
pub fn put_junction(o: &mut Draft, step: &Junction) -> Result<(), AllocError>
    ensures { Puts junction FitsJunction step.now result o.old o.new }
{
    match step {
        Junction::Parachain(id) => {
            o.put_u8(0)?;
            o.put_compact(*id as u128)
        }
        Junction::AccountId32 { network, id } => {
            o.put_u8(1)?;
            put_optional_network(o, network)?;
            o.put_bytes(id)
        }
        Junction::AccountIndex64 { network, index } => {
            o.put_u8(2)?;
            put_optional_network(o, network)?;
            o.put_compact(*index as u128)
        }
        Junction::AccountKey20 { network, key } => {
            o.put_u8(3)?;
            put_optional_network(o, network)?;
            o.put_bytes(key)
        }
        Junction::PalletInstance(index) => {
            o.put_u8(4)?;
            o.put_u8(*index)
        }
        Junction::GeneralIndex(index) => {
            o.put_u8(5)?;
            o.put_compact(*index)
        }
        Junction::GeneralKey { length, key } => {
            o.put_u8(6)?;
            o.put_u8(*length)?;
            o.put_bytes(key)
        }
        Junction::OnlyChild => o.put_u8(7),
        Junction::Plurality { id, part } => {
            o.put_u8(8)?;
            put_body(o, id)?;
            put_part(o, part)
        }
        Junction::GlobalConsensus(network) => {
            o.put_u8(9)?;
            put_network(o, network)
        }
    }
}

/// Appends the junctions after their number.
pub fn put_junctions(o: &mut Draft, interior: &Junctions) -> Result<(), AllocError>
    ensures { Puts junctions FitsJunctions interior.now result o.old o.new }
{
    let items = interior.items();
    o.put_u8(items.len() as u8)?;
    for j in items {
        put_junction(o, j)?;
    }
    Ok(())
}

/// Appends the location.
pub fn put_location(o: &mut Draft, place: &Location) -> Result<(), AllocError>
    ensures { Puts location FitsLocation place.now result o.old o.new }
{
    o.put_u8(place.parents)?;
    put_junctions(o, &place.interior)
}

/// Appends the one spelling of the network. Where memory is refused, `o` is as before.
pub fn write_network_id(o: &mut Out, v: &NetworkId) -> Result<(), AllocError>
    ensures { IsWritten network FitsNetwork v.now result o.old o.new }
{
    let mut draft = o.draft();
    let written = put_network(&mut draft, v);
    o.settle(draft, written)
}

/// Appends the one spelling of the junction. Where memory is refused, `o` is as before.
pub fn write_junction(o: &mut Out, v: &Junction) -> Result<(), AllocError>
    ensures { IsWritten junction FitsJunction v.now result o.old o.new }
{
    let mut draft = o.draft();
    let written = put_junction(&mut draft, v);
    o.settle(draft, written)
}

/// Appends the one spelling of the junctions, their number first. Where memory is refused, `o` is as before.
pub fn write_junctions(o: &mut Out, v: &Junctions) -> Result<(), AllocError>
    ensures { IsWritten junctions FitsJunctions v.now result o.old o.new }
{
    let mut draft = o.draft();
    let written = put_junctions(&mut draft, v);
    o.settle(draft, written)
}

/// Appends the one spelling of the location. Where memory is refused, `o` is as before.
pub fn write_location(o: &mut Out, v: &Location) -> Result<(), AllocError>
    ensures { IsWritten location FitsLocation v.now result o.old o.new }
{
    let mut draft = o.draft();
    let written = put_location(&mut draft, v);
    o.settle(draft, written)
}
