//! A location: how many levels up, and then the junctions down; its path, and how another chain names the same thing.
ghost use Rattle.std.specs.Prelude.{◌≡◌, ◌<◌, ◌≤◌, ◌↔◌, Ok, Err, OnOk, IsTrue, MatchResult, [], length};
ghost use Rattle.std.specs.List.{common_prefix_len};
ghost use Rattle.locations.specs.Chains.{HasPath, path_of, same_junction, IsPathFault, IsNormal};
ghost use Rattle.locations.specs.Steps.{inverted, prepended, shortened, simplified, Becomes};
ghost use Rattle.locations.specs.Reanchoring.{raised_parents, reanchored, way_down};

use crate::interior::{are_lists_apart, are_same, common_length, last};
use crate::{Full, Junction, Junctions, LocationFault, MAX_JUNCTIONS, PathFault};
use std::cmp::Ordering;
use std::hash::{Hash, Hasher};

/// Where something is, seen from somewhere else: `parents` levels up, and then the junctions down.
/// Locations are ordered by the parents, then by the interior.
#[derive(Debug, Drop, PartialOrd, Ord)]
pub struct Location {
    /// How many levels up.
    pub parents: u8,
    /// The junctions down from there.
    pub interior: Junctions,
}

impl Location {
    /// The same location.
    pub fn copy(&self) -> Location
        ensures same { result ≡ self.now }
        ensures bound { length self.now.interior ≤ 8 }
    {
        Location {
            parents: self.parents,
            interior: self.interior.copy(),
        }
    }

    /// The location that looks (`Here`): no level up, and no junction down.
    pub fn here() -> Location
        ensures { result ≡ record { parents = 0; interior = [] } }
    {
        Location {
            parents: 0,
            interior: Junctions::empty(),
        }
    }

    /// Becomes the same location, in place.
    pub fn assign(&mut self, other: &Location)
        ensures { self.new ≡ other.now }
    {
        self.parents = other.parents;
        self.interior.assign(&other.interior);
    }

    /// The list of junctions from the root to this location, which is seen from the chain of this context:
    /// the context without its last `parents` junctions, and then the interior.
    pub fn path(&self, context: &Junctions) -> Result<Junctions, PathFault>
        ensures { MatchResult result
            (λ path. HasPath context.now self.now × (path ≡ path_of context.now self.now)
            × (length path ≤ 8))
            (IsPathFault context.now self.now) }
    {
        let chain = context.items();
        let parents = usize::from(self.parents);
        if chain.len() < parents {
            return Err(PathFault::PastRoot);
        }
        let shared = &chain[..chain.len() - parents];
        Junctions::joined(shared, self.interior.items()).map_err(|_| PathFault::Full)
    }

    /// Whether this is the shortest name of what it names, at the chain of this context: the parents don't
    /// lead past the root, no junction is `OnlyChild`, and where there are parents and junctions the
    /// first junction doesn't lead back to where the last parent came from.
    pub fn is_normal(&self, context: &Junctions) -> bool
        ensures { IsTrue result ↔ IsNormal context.now self.now }
    {
        let chain = context.items();
        let own = self.interior.items();
        let parents = usize::from(self.parents);
        if chain.len() < parents || own.contains(&Junction::OnlyChild) {
            return false;
        }
        match own.first() {
            Some(first) if parents > 0 => !are_same(first, &chain[chain.len() - parents]),
            _ => true,
        }
    }

    /// Puts the prefix in front: what the location is, seen from where the prefix is seen. The prefix's
    /// last junctions cancel own parents one for one; its other junctions and its parents are added.
    pub fn prepend_with(&mut self, prefix: &Location) -> Result<(), LocationFault>
        ensures { Becomes result self.old self.new (prepended prefix.now self.old) }
    {
        let outer = prefix.interior.items();
        let own_parents = usize::from(self.parents);
        let cancelled = own_parents.min(outer.len());
        let kept = &outer[..outer.len() - cancelled];
        let interior = Junctions::joined(kept, self.interior.items())?;
        let parents = usize::from(prefix.parents) + own_parents - cancelled;
        if parents > 255 {
            return Err(LocationFault::TooHigh);
        }
        *self = Location {
            parents: parents as u8,
            interior,
        };
        Ok(())
    }

    /// Drops the junctions that lead back along the context, each with a parent. It does nothing where
    /// the context has fewer junctions than the location has parents.
    pub fn simplify(&mut self, context: &Junctions)
        ensures { self.new ≡ simplified context.now self.old }
    {
        let parents = usize::from(self.parents);
        let chain = context.items();
        if parents > chain.len() {
            return;
        }
        let own = self.interior.items();
        let back = common_length(last(chain, parents), own);
        let interior = Junctions::from_few(&own[back..]);
        *self = Location {
            parents: (parents - back) as u8,
            interior,
        };
    }

    /// The same location as the target sees it, both seen from the chain of this context. `Full` also where
    /// the target has more than eight parents.
    pub fn reanchored(
        &self,
        target: &Location,
        context: &Junctions,
    ) -> Result<Location, LocationFault>
        ensures { result ≡ reanchored self.now target.now context.now }
    {
        let mut seen = Location::here();
        self.reanchor_into(target, context, &mut seen)?;
        Ok(seen)
    }

    /// Writes into `seen` the same location as the target sees it, both seen from the chain of this context.
    /// `Full` as in `reanchored`; nothing is said of what is then in `seen`.
    pub fn reanchor_into(
        &self,
        target: &Location,
        context: &Junctions,
        seen: &mut Location,
    ) -> Result<(), LocationFault>
        ensures { MatchResult result
            (λ _. reanchored self.now target.now context.now ≡ Ok seen.new)
            (λ fault. reanchored self.now target.now context.now ≡ Err fault) }
    {
        if usize::from(target.parents) > MAX_JUNCTIONS {
            return Err(LocationFault::Full);
        }
        if self.parents > target.parents {
            return self.raise_into(target, seen);
        }
        self.go_down(target, context, &mut seen.interior)?;
        fork(seen, target);
        Ok(())
    }

    /// The location where it lies above all that it shares with the target: as many parents more as the target has junctions after its own
    /// parents.
    fn raise_into(&self, target: &Location, seen: &mut Location) -> Result<(), LocationFault>
        requires above { target.now.parents < self.now.parents }
        ensures { MatchResult result
            (λ _. (raised_parents self.now target.now ≤ 255)
            × (seen.new ≡ record {
              parents = raised_parents self.now target.now;
              interior = self.now.interior;
            }))
            (λ fault. (255 < raised_parents self.now target.now)
            × (fault ≡ LocationFault.TooHigh)) }
    {
        let above = usize::from(self.parents) - usize::from(target.parents);
        let parents = target.interior.items().len() + above;
        if parents > 255 {
            return Err(LocationFault::TooHigh);
        }
        seen.parents = parents as u8;
        seen.interior.assign(&self.interior);
        Ok(())
    }

    /// The way down to the location from the highest point that the target reaches: the first of the context's last junctions, `OnlyChild`
    /// for each one that is missing, and then its own.
    fn go_down(
        &self,
        target: &Location,
        context: &Junctions,
        way: &mut Junctions,
    ) -> Result<(), Full>
        requires near { target.now.parents ≤ 8 }
        requires below { self.now.parents ≤ target.now.parents }
        ensures { MatchResult result
            (λ _. (length (way_down self.now target.now context.now) ≤ 8)
            × (way.new ≡ way_down self.now target.now context.now))
            (λ _. 8 < length (way_down self.now target.now context.now)) }
    {
        let known = last(context.items(), usize::from(target.parents));
        let missing = usize::from(target.parents) - known.len();
        let above = usize::from(target.parents) - usize::from(self.parents);
        let blanks = above.min(missing);
        way.set_unknown(blanks);
        way.extend(&known[..above - blanks])?;
        way.append(&self.interior)?;
        Ok(())
    }
}

/// Where the chain of this context lies, seen from the target: as many parents as the target has
/// junctions, and then the last `target.parents` junctions of the context, `OnlyChild` for each one
/// that is missing. `Full` where the target has more than eight parents.
pub fn invert_target(context: &Junctions, target: &Location) -> Result<Location, Full>
    ensures inverted { MatchResult result
        (λ l. (target.now.parents ≤ 8) × (l ≡ inverted context.now target.now))
        (λ _. 8 < target.now.parents) }
    ensures bound { OnOk result (length target.now.interior ≤ 8) }
{
    let wanted = usize::from(target.parents);
    if wanted > MAX_JUNCTIONS {
        return Err(Full);
    }
    let known = context.items();
    let missing = wanted.saturating_sub(known.len());
    let unknown = [Junction::OnlyChild; MAX_JUNCTIONS];
    let interior = Junctions::joined(&unknown[..missing], last(known, wanted))?;
    Ok(Location {
        parents: target.interior.items().len() as u8,
        interior,
    })
}

/// Drops the junctions with which a way down goes along the target's, each with a parent.
fn fork(way: &mut Location, target: &Location)
    ensures { way.new ≡ shortened (common_prefix_len same_junction target.now.interior
        way.old.interior) (record {
          parents = length target.now.interior;
          interior = way.old.interior;
        }) }
{
    let down = target.interior.items();
    let shared = common_length(down, way.interior.items());
    way.parents = (down.len() - shared) as u8;
    if shared == 0 {
        return;
    }
    way.interior.drop_front(shared);
}

impl PartialEq for Location {
    ghost use Rattle.std.specs.Cmp.{partial_equiv_from_equiv, eq_by_cmp_equiv};
    ghost use Rattle.std.specs.Ordering.{eq_by_cmp};
    ghost use Rattle.locations.specs.Order.{location_cmp};
    ghost use Rattle.locations.specs.OrderLaws.{location_total};

    ghost eq = { eq_by_cmp location_cmp };

    ghost laws = { partial_equiv_from_equiv (eq_by_cmp_equiv location_total) };

    fn eq(&self, other: &Location) -> bool {
        if are_lists_apart(self.interior.items(), other.interior.items()) {
            return false;
        }
        self.cmp(other).is_eq()
    }
}

impl Eq for Location {
    ghost use Rattle.std.specs.Cmp.{eq_by_cmp_equiv};
    ghost use Rattle.locations.specs.OrderLaws.{location_total};

    ghost laws = { eq_by_cmp_equiv location_total };
}

/// Hashes how high it lies, and what each junction says.
impl Hash for Location {
    ghost use Rattle.locations.specs.Hashing.{location_input};
    ghost use Rattle.locations.specs.HashLaws.{location_alike};

    ghost hash_input = { location_input };

    ghost respects_eq = { location_alike };

    fn hash<H: Hasher>(&self, state: &mut H) {
        state.write_u8(self.parents);
        self.interior.hash(state);
    }
}
