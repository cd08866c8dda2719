//! The law of the trap store. The function has an empty body, and its contract is the law.
ghost use Rattle.std.specs.Prelude.{◌≡◌, ℕ, ◌+◌, Bool, List};
ghost use Rattle.std.specs.List.{AllByRecursion};
ghost use Rattle.amounts.specs.Amounts.{total};
ghost use Rattle.locations.specs.declared.relative.Location.{Location};
ghost use Rattle.asset_lists.specs.declared.units.Asset.{Asset};
ghost use Rattle.asset_lists.specs.Units.{Unit};
ghost use Rattle.asset_bundles.specs.Bundles.{Bundle, bundle_of, IsHolding};
ghost use Rattle.asset_bundles.specs.Traps.{Store, pieces_of, with_trapped, IsClaimed, trapped_where, IsPiece, AreNumbered};

/// Trapping adds to the traps just what is trapped, of all units that pass any test, and a claim takes out just what it names. The
/// pieces of what a bundle holds have at most 20 assets each, as a list that an instruction may name, so each can be claimed; they
/// have one number after the other.
pub fn law_of_traps()
    ensures kept { (p : Unit → Bool) (store : Store) (origin : Location) (goods : Bundle)
        → trapped_where p (with_trapped store origin goods).traps ≡ trapped_where p store.traps
        + total p goods }
    ensures given { (p : Unit → Bool) (list : List Asset) (origin : Location) (old new : Store)
        → IsClaimed list origin old new
        → trapped_where p new.traps + total p (bundle_of list) ≡ trapped_where p old.traps }
    ensures pieces { (number : ℕ) (origin : Location) (xs : List Asset)
        → IsHolding xs → AllByRecursion (IsPiece origin) (pieces_of number origin (bundle_of xs)) }
    ensures numbers { (number : ℕ) (origin : Location) (goods : Bundle)
        → AreNumbered number (pieces_of number origin goods) }
{}
