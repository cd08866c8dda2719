//! The laws of coherent networks. Each function has an empty body, and its contract is a law.
ghost use Rattle.std.specs.Prelude.{◌≡◌, ◌<◌, List, Some, None, Ok};
ghost use Rattle.amounts.specs.Amounts.{amount, total};
ghost use Rattle.locations.specs.declared.grammar.Junction.{Junction};
ghost use Rattle.locations.specs.declared.relative.Location.{Location};
ghost use Rattle.locations.specs.Chains.{HasPath, path_of};
ghost use Rattle.locations.specs.Reanchoring.{reanchored};
ghost use Rattle.asset_lists.specs.Units.{Unit};
ghost use Rattle.asset_bundles.specs.Bundles.{Bundle};
ghost use Rattle.asset_bundles.specs.Landing.{Renamed, StayApart};
ghost use Rattle.trust_tables.specs.declared.rows.AssetRow.{AssetRow};
ghost use Rattle.trust_tables.specs.Chains.{location_of};
ghost use Rattle.law_coherence.specs.UniversalAssets.{UniversalAsset, Choice, is_unit_at};
ghost use Rattle.law_coherence.specs.Renaming.{HasReanchorableUnits};
ghost use Rattle.law_coherence.specs.Networks.{Table, context_of, IsIn, AreTwins, HasTwin, IsNetwork, Agrees};
ghost use Rattle.law_coherence.specs.Causes.{table_cause};

/// Whatever the target can name has as much of each asset, and of each instance, under the new names.
pub fn law_of_renaming()
    ensures { (target : Location) (context : List Junction) (a : UniversalAsset) (choice : Choice)
        (b : Bundle) → HasPath context target → HasReanchorableUnits target context b
        → total (is_unit_at (path_of context target) a choice) (Renamed target context b)
        ≡ total (is_unit_at context a choice) b }
{}

/// In a network that agrees, a listed id becomes the id of the row with its path, and no two units of a bundle become one.
pub fn law_of_renaming_without_merging()
    ensures named { (n : List Table) (agrees : Agrees n) (s t : Table) (s_in : IsIn n s)
        (t_in : IsIn n t) (l : Location) (leads : location_of s.site.chain t.site.chain ≡ Some l)
        (x y : AssetRow) → IsIn s.rows x
        → AreTwins s t x y → reanchored x.id l (context_of s) ≡ Ok y.id }
    ensures apart { (n : List Table) (agrees : Agrees n) (s t : Table) (s_in : IsIn n s)
        (t_in : IsIn n t) (l : Location) (leads : location_of s.site.chain t.site.chain ≡ Some l)
        (b : Bundle) → ((u : Unit) → 0 < amount b u → HasTwin s t u)
        → StayApart l (context_of s) b }
{}

/// Where no cause is found, the chains agree.
pub fn law_of_coherence()
    ensures { (n : List Table) → IsNetwork n → table_cause n ≡ None → Agrees n }
{}
