//! Digests of an origin and a list of assets, by which traps are found. Two may have one digest, so what is found is compared.
ghost use Rattle.std.specs.Prelude.{◌≡◌, fold};
ghost use Rattle.std.specs.List.{flat_map};
ghost use Rattle.asset_bundles.specs.Digest.{digest, asset_writes, id_writes, fun_writes, instance_writes};

use asset_lists::{Asset, AssetId, Fun, Instance};
use locations::Location;
use std::hash::{DefaultHasher, Hash, Hasher};

/// The digest of an origin and a list. It takes no memory.
pub(crate) fn digest(origin: &Location, list: &[Asset]) -> u64
    ensures { result ≡ digest origin.now list.now }
{
    let mut state = DefaultHasher::new();
    origin.hash(&mut state);
    write_assets(list, &mut state);
    state.finish()
}

/// Each asset.
fn write_assets<H: Hasher>(list: &[Asset], state: &mut H)
    ensures { state.new ≡ fold H.write state.old (flat_map asset_writes list.now) }
{
    for asset in list {
        write_asset(asset, state);
    }
}

/// What it is, and how much or which instance.
fn write_asset<H: Hasher>(asset: &Asset, state: &mut H)
    ensures { state.new ≡ fold H.write state.old (asset_writes asset.now) }
{
    write_id(&asset.id, state);
    write_fun(&asset.fun, state);
}

/// The location or the bytes of an id.
fn write_id<H: Hasher>(id: &AssetId, state: &mut H)
    ensures { state.new ≡ fold H.write state.old (id_writes id.now) }
{
    match id {
        AssetId::Concrete(place) => place.hash(state),
        AssetId::Abstract(bytes) => state.write(bytes),
    }
}

/// The amount or the instance.
fn write_fun<H: Hasher>(fun: &Fun, state: &mut H)
    ensures { state.new ≡ fold H.write state.old (fun_writes fun.now) }
{
    match fun {
        Fun::Fungible(amount) => state.write_u128(*amount),
        Fun::NonFungible(instance) => write_instance(instance, state),
    }
}

/// The number or the bytes of an instance.
fn write_instance<H: Hasher>(instance: &Instance, state: &mut H)
    ensures { state.new ≡ fold H.write state.old (instance_writes instance.now) }
{
    match instance {
        Instance::Undefined => {}
        Instance::Index(index) => state.write_u128(*index),
        Instance::Array4(bytes) => state.write(bytes),
        Instance::Array8(bytes) => state.write(bytes),
        Instance::Array16(bytes) => state.write(bytes),
        Instance::Array32(bytes) => state.write(bytes),
    }
}
