//! What leaves each account its floor: laws, as the contracts of functions that do nothing.
ghost use Rattle.std.specs.Prelude.{◌≡◌, ℕ, Bool, true, false, List, None};
ghost use Rattle.asset_locks.specs.LockMaps.{LockKey};
ghost use Rattle.asset_pools.specs.Exchanges.{is_pool_account};
ghost use Rattle.locations.specs.declared.relative.Location.{Location};
ghost use Rattle.asset_lists.specs.declared.units.Asset.{Asset};
ghost use Rattle.asset_bundles.specs.Bundles.{Bundle, IsHolding};
ghost use Rattle.call_dispatch.specs.Spelling.{AnyCall};
ghost use Rattle.trust_tables.specs.Accounts.{account_of};
ghost use Rattle.exec_base.specs.Part.{ChainPart};
ghost use Rattle.exec_base.specs.Host.{first_fault, debit_fault, given, got, is_lockable};
ghost use Rattle.exec_base.specs.Pools.{exchanged};
ghost use Rattle.exec_base.specs.Calls.{dispatched, IsDispatchedInPart};
ghost use Rattle.law_hosts.specs.Floors.{HasFloors, HoldsFloors, FreesPools};

/// An account that gives what it isn't refused keeps its floor, and so does one that gets something.
pub fn law_of_floors_under_moves()
    ensures given { (p : ChainPart) (list : List Asset) (who : Location) → IsHolding list
        → first_fault (debit_fault p (account_of who p.site)) list ≡ None
        → HoldsFloors p → HoldsFloors (given p list who) }
    ensures got { (p : ChainPart) (goods : Bundle) (who : Location) → HoldsFloors p
        → HoldsFloors (got p goods who) }
{}

/// A call that is dispatched for an account leaves each account at least its floor of each asset, and so does the part of it that was done where memory
/// was refused.
pub fn law_of_floors_under_calls()
    ensures dispatched { (p : ChainPart) (who : List ℕ) (c : AnyCall) → HoldsFloors p
        → HoldsFloors (dispatched p who c) }
    ensures in_part { (p : ChainPart) (who : List ℕ) (c : AnyCall) (now : ChainPart)
        → IsDispatchedInPart p who c now → HoldsFloors p → HoldsFloors now }
{}

/// An exchange with a pool of the chain leaves each account at least its floor of each asset, where no pool's account has a lock.
pub fn law_of_floors_under_exchanges()
    ensures { (p : ChainPart) (give : Bundle) (want : List Asset) (maximal : Bool)
        → FreesPools p → HoldsFloors p
        → HasFloors p.locked (exchanged p give want maximal).held }
{}

/// No lock is ever set on the account of a pool.
pub fn law_of_free_pools()
    ensures { (p : ChainPart) (a : Asset) (key : LockKey) → is_lockable p a key ≡ true
        → is_pool_account p.pools key.0 ≡ false }
{}
