//! Traps in the order in which they came, found by origin and list.
ghost use Rattle.std.specs.Prelude.{◌≡◌, ◌<◌, ◌≤◌, ◌-◌, ◌^◌, [], ◌++◌, ◌↔◌, length, take, IsSome, IsTrue, IfOk, OnOk, OnErr, MatchOption, MatchResult};
ghost use Rattle.std.specs.List.{AllByRecursion};
ghost use Rattle.std.specs.Map.{values_of};
ghost use Rattle.asset_bundles.specs.Traps.{Fits, NoneFits};
ghost use Rattle.asset_bundles.specs.Oldest.{IsLonger, IsOneLonger, ArePlaced, trap_at, NoneAt, FitsAt, IsOldest, IsTaken};

use crate::Trap;
use crate::digest::digest;
use asset_lists::Assets;
use locations::Location;
use std::alloc::{AllocError, Global};
use std::collections::btree_map::Values;
use std::collections::{BTreeMap, BTreeSet};
use std::marker::Model;

/// Traps, oldest first. Each has a position, which is higher than those before it, and is listed by the digest of what it has.
#[derive(Drop)]
pub(crate) struct TrapRows {
    traps: BTreeMap<u64, Trap>,
    places: BTreeSet<(u64, u64)>,
}

impl Model for TrapRows {
    ghost use Rattle.std.specs.Prelude.{List};
    ghost use Rattle.std.specs.Map.{values_of};
    ghost use Rattle.asset_bundles.specs.declared.trap.Trap.{Trap};
    ghost use Rattle.asset_bundles.specs.StoreCode.{rows_code};
    ghost use Rattle.asset_bundles.specs.Oldest.{ArePlaced};

    ghost Value = { List Trap };

    ghost coded = { rows_code };

    ghost view = { λ r. values_of r.traps.entries };

    ghost invariant = { λ r. ArePlaced r.traps.entries r.places.keys };
}

impl TrapRows {
    /// No traps. It takes no memory.
    pub(crate) fn new(alloc: Global) -> TrapRows
        ensures { result ≡ [] }
    {
        TrapRows {
            traps: BTreeMap::new(alloc),
            places: BTreeSet::new(alloc),
        }
    }

    /// All traps, oldest first.
    pub(crate) fn iter(&self) -> Values<'_, u64, Trap>
        ensures { result ≡ self.now }
    {
        self.traps.values()
    }

    /// Puts traps after the others: all of them, or none where memory is refused.
    pub(crate) fn append(&mut self, traps: Vec<Trap>) -> Result<(), AllocError>
        ensures { MatchResult result
            (λ _. self.new ≡ self.old ++ traps.items)
            (λ _. self.new ≡ self.old) }
    {
        let count = self.traps.len();
        let added = push_all(&mut self.traps, &mut self.places, traps);
        if added.is_err() {
            cut_back(&mut self.traps, &self.places, count);
        }
        added
    }

    /// Takes out the oldest trap with that origin and just that list. It takes no memory.
    pub(crate) fn take_oldest(&mut self, list: &Assets, origin: &Location) -> Option<Trap>
        ensures { MatchOption result
            (NoneFits list.now origin.now self.old × (self.new ≡ self.old))
            (λ trap. IsTaken list.now origin.now self.old trap self.new) }
    {
        match oldest(&self.traps, &self.places, list, origin) {
            Some(key) => {
                self.places.remove(&key);
                self.traps.remove(&key.1)
            }
            None => None,
        }
    }
}

/// Puts traps after the others, one by one. Where memory is refused, those that were put there stay.
fn push_all(
    rows: &mut BTreeMap<u64, Trap>,
    places: &mut BTreeSet<(u64, u64)>,
    traps: Vec<Trap>,
) -> Result<(), AllocError>
    requires { ArePlaced rows.old.entries places.old.keys }
    ensures placed { ArePlaced rows.new.entries places.new.keys }
    ensures kept { IsLonger rows.old.entries rows.new.entries }
    ensures added { OnOk result (values_of rows.new.entries ≡ values_of rows.old.entries
        ++ traps.items) }
{
    for trap in traps {
        push(rows, places, trap)?;
    }
    Ok(())
}

/// Puts a trap after the others. Its position may be listed where memory is refused.
fn push(
    rows: &mut BTreeMap<u64, Trap>,
    places: &mut BTreeSet<(u64, u64)>,
    trap: Trap,
) -> Result<(), AllocError>
    requires { ArePlaced rows.old.entries places.old.keys }
    ensures placed { ArePlaced rows.new.entries places.new.keys }
    ensures added { MatchResult result
        (λ _. IsOneLonger rows.old.entries trap rows.new.entries)
        (λ _. rows.new.entries ≡ rows.old.entries) }
{
    let assets = trap.goods.list()?;
    let place = place_behind(rows)?;
    places.insert((digest(&trap.origin, assets.as_slice()), place))?;
    rows.insert(place, trap)?;
    Ok(())
}

/// A position after all traps. It fails only after the position 2^64-1.
fn place_behind(rows: &BTreeMap<u64, Trap>) -> Result<u64, AllocError>
    ensures behind { IfOk result (λ place. AllByRecursion (λ row. row.0 < place) rows.now.entries) }
    ensures full { OnErr result (IsSome (trap_at rows.now.entries (2 ^ 64 - 1))) }
{
    let Some((last, _)) = rows.last_key_value() else {
        return Ok(0);
    };
    if *last == u64::MAX {
        return Err(AllocError);
    }
    Ok(*last + 1)
}

/// Drops all but the first `count` traps.
fn cut_back(rows: &mut BTreeMap<u64, Trap>, places: &BTreeSet<(u64, u64)>, count: usize)
    requires placed { ArePlaced rows.old.entries places.now.keys }
    requires few { count ≤ length rows.old.entries }
    ensures placed { ArePlaced rows.new.entries places.now.keys }
    ensures cut { rows.new.entries ≡ take count rows.old.entries }
{
    for _ in count..rows.len() {
        rows.pop_last();
    }
}

/// The digest and the position of the oldest trap with that origin and that list.
fn oldest(
    rows: &BTreeMap<u64, Trap>,
    places: &BTreeSet<(u64, u64)>,
    list: &Assets,
    origin: &Location,
) -> Option<(u64, u64)>
    requires { ArePlaced rows.now.entries places.now.keys }
    ensures { MatchOption result
        (NoneAt list.now origin.now rows.now.entries)
        (λ key. IsOldest list.now origin.now rows.now.entries key.1) }
{
    let sought = digest(origin, list.items());
    for key in places.range((sought, 0)..) {
        if key.0 != sought {
            return None;
        }
        if fits_at(rows, key.1, list, origin) {
            return Some(*key);
        }
    }
    None
}

/// Whether there is a trap at the position, with that origin and that list.
fn fits_at(rows: &BTreeMap<u64, Trap>, place: u64, list: &Assets, origin: &Location) -> bool
    ensures { IsTrue result ↔ FitsAt list.now origin.now rows.now.entries place }
{
    match rows.get(&place) {
        Some(trap) => fits(trap, list, origin),
        None => false,
    }
}

/// Whether the trap has that origin and just that list.
fn fits(trap: &Trap, list: &Assets, origin: &Location) -> bool
    ensures { IsTrue result ↔ Fits list.now origin.now trap.now }
{
    trap.origin == *origin && trap.goods.is_list(list)
}
