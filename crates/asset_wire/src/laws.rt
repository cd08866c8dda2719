//! The laws of the spellings: in a version none is a proper prefix of another of its type. And of the readers: each takes what is
//! spelled so, whatever follows it, and nothing else.

ghost use Rattle.std.specs.Prelude.{ℕ, List};
ghost use Rattle.scale_codec.specs.Spelling.{HasOneSpelling, IsPrefixFree, Spells};
ghost use Rattle.scale_codec.specs.Reading.{Reads};
ghost use Rattle.asset_lists.specs.declared.filters.Filter.{Filter};
ghost use Rattle.asset_lists.specs.declared.units.Asset.{Asset};
ghost use Rattle.asset_lists.specs.declared.units.AssetId.{AssetId};
ghost use Rattle.asset_lists.specs.declared.units.AssetId.TheVariants.{Abstract};
ghost use Rattle.operands.specs.declared.version.Version.{Version};
ghost use Rattle.operands.specs.declared.version.Version.TheVariants.{V3, V4};
ghost use Rattle.asset_wire.specs.Spelling.{asset_id, FitsId, instance, FitsInstance, asset, FitsAsset, assets, FitsAssets, filter, FitsFilter, IsNamed, IsWritableAsset, AreNamed, IsFilterNamed};
ghost use Rattle.asset_wire.specs.Reading.{asset_id_at, instance_at, asset_at, assets_at, filter_at};

/// An instance, and in each version an id, an asset, a list and a filter, have at most one spelling, by
/// definition: a spelling is a function of its value.
pub fn law_of_one_spelling()
    ensures instance { HasOneSpelling instance FitsInstance }
    ensures asset_id { (v : Version) → HasOneSpelling (asset_id v) (FitsId v) }
    ensures asset { (v : Version) → HasOneSpelling (asset v) (FitsAsset v) }
    ensures assets { (v : Version) → HasOneSpelling (assets v) (FitsAssets v) }
    ensures filter { (v : Version) → HasOneSpelling (filter v) (FitsFilter v) }
{}

/// No spelling of an instance, and in a version of an id, an asset, a list or a filter, is a proper prefix of another of its type.
pub fn law_of_no_prefix()
    ensures instance { IsPrefixFree instance FitsInstance }
    ensures asset_id { (v : Version) → IsPrefixFree (asset_id v) (FitsId v) }
    ensures asset { (v : Version) → IsPrefixFree (asset v) (FitsAsset v) }
    ensures assets { (v : Version) → IsPrefixFree (assets v) (FitsAssets v) }
    ensures filter { (v : Version) → IsPrefixFree (filter v) (FitsFilter v) }
{}

/// The readers take the spellings, whatever follows them, and nothing else.
pub fn law_of_readers()
    ensures instance { Reads instance FitsInstance instance_at }
    ensures asset_id { (v : Version) → Reads (asset_id v) (FitsId v) (asset_id_at v) }
    ensures asset { (v : Version) → Reads (asset v) (FitsAsset v) (asset_at v) }
    ensures assets { (v : Version) → Reads (assets v) (FitsAssets v) (assets_at v) }
    ensures filter { (v : Version) → Reads (filter v) (FitsFilter v) (filter_at v) }
{}

/// An id that is bytes has no spelling in version 4. An id that version 4 can say, version 3 can say too.
pub fn law_of_versions()
    ensures abstract_id { (bytes text : List ℕ)
        → Spells (asset_id V4) (FitsId V4) (Abstract bytes) text → ⊥ }
    ensures wider { (id : AssetId) → FitsId V4 id → FitsId V3 id }
{}

/// What has a spelling in a version can be written in it, and so what is read in a version.
pub fn law_of_writable()
    ensures asset_id { (v : Version) (id : AssetId) → FitsId v id → IsNamed v id }
    ensures asset { (v : Version) (a : Asset) → FitsAsset v a → IsWritableAsset v a }
    ensures assets { (v : Version) (list : List Asset) → FitsAssets v list → AreNamed v list }
    ensures filter { (v : Version) (f : Filter) → FitsFilter v f → IsFilterNamed v f }
{}
