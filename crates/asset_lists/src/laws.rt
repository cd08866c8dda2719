//! What holds of the definitions themselves: the orders are exact, the tests of lists are the rules, and a list stays
//! one.
ghost use Rattle.std.specs.Prelude.{◌≡◌, ◌≤◌, ◌↔◌, ◌⊎◌, ℕ, List, ◌∷◌, slice_get, Some, None, IsTrue, IsNone, IsSomeAnd};
ghost use Rattle.std.specs.List.Sorted.{IsPermutation};
ghost use Rattle.locations.specs.declared.grammar.Junction.{Junction};
ghost use Rattle.locations.specs.declared.relative.Location.{Location};
ghost use Rattle.locations.specs.Order.{IsExactOrder};
ghost use Rattle.asset_lists.specs.declared.units.Asset.{Asset};
ghost use Rattle.asset_lists.specs.Units.{Unit, instance_cmp, asset_id_cmp, unit_cmp, asset_cmp};
ghost use Rattle.asset_lists.specs.DerivedOrder.{IsDerivedInstanceOrder};
ghost use Rattle.asset_lists.specs.Lists.{TestsLists, AreInOrder, is_rising, IsAssetList, TakesIn};
ghost use Rattle.asset_lists.specs.Moves.{all_reanchored, IsReanchorable, occurrences, HasTwice, IsReanchoredList, reanchored_list};

/// Each order is total, and ties only equal values; the derived order of instances is that of the
/// definition.
pub fn law_of_exact_asset_orders()
    ensures instances { IsExactOrder instance_cmp }
    ensures derived { IsDerivedInstanceOrder }
    ensures ids { IsExactOrder asset_id_cmp }
    ensures units { IsExactOrder unit_cmp }
    ensures assets { IsExactOrder asset_cmp }
{}

/// The test that computes is true just of the lists that instructions speak in.
pub fn law_of_exact_list_test()
    ensures { TestsLists }
{}

/// A list rises exactly where each asset comes before the later ones, and then no unit is in it twice.
pub fn law_of_rising()
    ensures places { (xs : List Asset) → IsTrue (is_rising xs) ↔ AreInOrder xs }
    ensures once { (xs : List Asset) (unit : Unit)
        → IsTrue (is_rising xs) → occurrences unit xs ≤ 1 }
{}

/// A list into which an asset is put is a list again, and has just that asset more.
pub fn law_of_insertion()
    ensures list { (old new : List Asset) (a : Asset)
        → IsAssetList old → TakesIn old new a → IsAssetList new }
    ensures more { (old new : List Asset) (a : Asset)
        → TakesIn old new a → IsPermutation (a ∷ old) new }
{}

/// A list that is reanchored has the ids that the target gives each asset. The relation of the call tells one list, the
/// one that is computed, and what is computed is in the relation; and where the call is refused, but for memory,
/// none is computed.
pub fn law_of_reanchored_lists()
    ensures list { (all new : List Asset) → IsReanchoredList all new → IsAssetList new }
    ensures named { (target : Location) (context : List Junction) (xs all : List Asset)
        → all_reanchored target context xs ≡ Some all
        → (i : ℕ) (a : Asset) → slice_get xs i ≡ Some a → IsReanchorable target context a.id }
    ensures computed { (target : Location) (context : List Junction) (xs new : List Asset)
        → IsSomeAnd (all_reanchored target context xs) (λ all. IsReanchoredList all new)
        → reanchored_list target context xs ≡ Some new }
    ensures moved { (target : Location) (context : List Junction) (xs new : List Asset)
        → IsAssetList new → reanchored_list target context xs ≡ Some new
        → IsSomeAnd (all_reanchored target context xs) (λ all. IsReanchoredList all new) }
    ensures refused { (target : Location) (context : List Junction) (xs : List Asset)
        → IsNone (all_reanchored target context xs) ⊎ IsSomeAnd (all_reanchored target context xs) HasTwice
        → reanchored_list target context xs ≡ None }
{}
