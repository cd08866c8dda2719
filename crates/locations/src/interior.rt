//! The list of junctions of a location.
ghost use Rattle.std.specs.Prelude.{◌≡◌, ◌≢◌, [], ◌∷◌, ◌++◌, ◌+◌, length, drop, replicate, ◌<◌, ◌≤◌, ◌↔◌, IsTrue, IsOk, IfOk, OnOk, OnErr, refl};
ghost use Rattle.std.specs.List.{common_prefix_len};
ghost use Rattle.std.specs.Borrow.{sem};
ghost use Rattle.locations.specs.Lending.{LendsPlaces};
ghost use Rattle.locations.specs.declared.grammar.Junction.TheVariants.{OnlyChild};
ghost use Rattle.locations.specs.Chains;
ghost use Rattle.locations.specs.Chains.{same_junction};
ghost use Rattle.std.specs.Cmp.{partial_equiv_from_equiv, eq_by_cmp_equiv, po};
ghost use Rattle.std.specs.Ordering.{eq_by_cmp, as_partial_cmp};
ghost use Rattle.locations.specs.Order.{junctions_cmp};
ghost use Rattle.locations.specs.OrderLaws.{junctions_total};

use crate::{Full, Junction};
use arrayvec::ArrayVec;
use std::cmp::Ordering;
use std::hash::{Hash, Hasher};
use std::marker::Model;

/// How many junctions a location holds at most, by the XCM format.
pub const MAX_JUNCTIONS: usize = 8;

/// At most eight junctions, from the outer to the inner. It takes no memory.
#[derive(Debug, Drop)]
pub struct Junctions {
    items: ArrayVec<Junction, MAX_JUNCTIONS>,
}

impl Model for Junctions {
    ghost use Rattle.std.specs.Prelude.{◌≤◌, List, length};
    ghost use Rattle.locations.specs.declared.grammar.Junction.{Junction};

    ghost Value = { List Junction };

    ghost view = { λ j. j.items.items };

    ghost invariant = { λ j. length j.items.items ≤ 8 };
}

impl Junctions {
    /// No junction.
    pub fn empty() -> Junctions
        ensures { result ≡ [] }
    {
        Junctions {
            items: ArrayVec::new(),
        }
    }

    /// The junctions, from the outer to the inner.
    pub fn items(&self) -> &[Junction]
        ensures value { result.now ≡ self.now }
        ensures bound { length self.now ≤ 8 }
    {
        self.items.as_slice()
    }

    /// The same junctions.
    pub fn copy(&self) -> Junctions
        ensures same { result ≡ self.now }
        ensures bound { length self.now ≤ 8 }
    {
        Junctions::from_few(self.items())
    }

    /// Becomes the same junctions, in place.
    pub fn assign(&mut self, other: &Junctions)
        ensures { self.new ≡ other.now }
    {
        self.items.clear();
        let _ = self.extend(other.items());
    }

    /// The junctions of a slice, of which there must be at most eight.
    pub fn from_few(junctions: &[Junction]) -> Junctions
        requires { length junctions.now ≤ 8 }
        ensures { result ≡ junctions.now }
    {
        let mut copies = Junctions::empty();
        let _ = copies.extend(junctions);
        copies
    }

    /// Appends a junction, or `Full` where there are eight.
    pub fn push(&mut self, junction: Junction) -> Result<(), Full>
        ensures room { IsOk result ↔ (length self.old < 8) }
        ensures ok { OnOk result (self.new ≡ self.old ++ junction ∷ []) }
        ensures err { OnErr result (self.new ≡ self.old) }
    {
        if self.items.is_full() {
            return Err(Full);
        }
        self.items.push(junction);
        Ok(())
    }

    /// The junctions that there are, for writing, and none of the free slots. The list stays as long as it is.
    pub fn places(&mut self) -> &mut [Junction]
        ensures* writes_back { sem 𝓛 (LendsPlaces self.entry result) }
        ensures value { result.now ≡ self.old }
        ensures bound { length self.old ≤ 8 }
    {
        self.items.as_mut_slice()
    }

    /// Appends the other junctions, or `Full` where the two are more than eight.
    pub fn append(&mut self, other: &Junctions) -> Result<(), Full>
        ensures room { IsOk result ↔ (length self.old + length other.now ≤ 8) }
        ensures ok { OnOk result (self.new ≡ self.old ++ other.now) }
        ensures err { OnErr result (self.new ≡ self.old) }
    {
        self.extend(other.items())
    }

    /// Appends the junctions of a slice, or `Full` where there would be more than eight.
    pub(crate) fn extend(&mut self, more: &[Junction]) -> Result<(), Full>
        ensures room { IsOk result ↔ (length self.old + length more.now ≤ 8) }
        ensures ok { OnOk result (self.new ≡ self.old ++ more.now) }
        ensures err { OnErr result (self.new ≡ self.old) }
    {
        self.items.try_extend_from_slice(more).map_err(|_| Full)
    }

    /// Becomes so many junctions that aren't known.
    pub(crate) fn set_unknown(&mut self, count: usize)
        requires { count ≤ 8 }
        ensures { self.new ≡ replicate count OnlyChild }
    {
        if count == 0 {
            self.items.clear();
            return;
        }
        self.become_unknown(count);
    }

    /// The same, where there are some: apart, since it makes a large value.
    #[inline(never)]
    fn become_unknown(&mut self, count: usize)
        requires { count ≤ 8 }
        ensures { self.new ≡ replicate count OnlyChild }
    {
        let unknown = [Junction::OnlyChild; MAX_JUNCTIONS];
        *self = Junctions::from_few(&unknown[..count]);
    }

    /// Drops the first junctions: apart, since it makes a large value.
    #[inline(never)]
    pub(crate) fn drop_front(&mut self, count: usize)
        requires { count ≤ length self.old }
        ensures { self.new ≡ drop count self.old }
    {
        let rest = Junctions::from_few(&self.items()[count..]);
        *self = rest;
    }

    /// The first junctions and then the others, or `Full` where they are more than eight.
    pub(crate) fn joined(front: &[Junction], back: &[Junction]) -> Result<Junctions, Full>
        ensures room { IsOk result ↔ (length front.now + length back.now ≤ 8) }
        ensures ok { IfOk result (λ both. both ≡ front.now ++ back.now) }
    {
        let mut both = Junctions::empty();
        both.extend(front)?;
        both.extend(back)?;
        Ok(both)
    }
}

/// The last `count` junctions, or all where there are fewer.
pub(crate) fn last(chain: &[Junction], count: usize) -> &[Junction]
    ensures last { result.now ≡ Chains.last count chain.now }
    ensures few { length result.now ≤ count }
{
    &chain[chain.len().saturating_sub(count)..]
}

/// Whether two junctions are one and the same.
pub(crate) fn are_same(ours: &Junction, theirs: &Junction) -> bool
    ensures { IsTrue result ↔ (ours.now ≡ theirs.now) }
{
    ours == theirs
}

/// How many junctions two lists have in common from the front on.
pub(crate) fn common_length(ours: &[Junction], theirs: &[Junction]) -> usize
    ensures common { result ≡ common_prefix_len same_junction ours.now theirs.now }
    ensures in_ours { result ≤ length ours.now }
    ensures in_theirs { result ≤ length theirs.now }
{
    let shorter = ours.len().min(theirs.len());
    for k in 0..shorter {
        if !are_same(&ours[k], &theirs[k]) {
            return k;
        }
    }
    shorter
}

/// Whether two junctions are of one kind that is a number, and of different numbers: a quick test of what is surely not equal.
pub fn are_apart(a: &Junction, b: &Junction) -> bool
    ensures { IsTrue result → a.now ≢ b.now }
{
    match (a, b) {
        (Junction::Parachain(a), Junction::Parachain(b)) => a != b,
        (Junction::PalletInstance(a), Junction::PalletInstance(b)) => a != b,
        (Junction::GeneralIndex(a), Junction::GeneralIndex(b)) => a != b,
        _ => false,
    }
}

/// Whether two lists are of different lengths, or end with different numbers: that is what lists of junctions differ in most often.
pub(crate) fn are_lists_apart(a: &[Junction], b: &[Junction]) -> bool
    ensures { IsTrue result → a.now ≢ b.now }
{
    if a.len() != b.len() {
        return true;
    }
    if a.is_empty() {
        return false;
    }
    are_apart(&a[a.len() - 1], &b[b.len() - 1])
}

impl PartialEq for Junctions {
    ghost eq = { eq_by_cmp junctions_cmp };

    ghost laws = { partial_equiv_from_equiv (eq_by_cmp_equiv junctions_total) };

    fn eq(&self, other: &Junctions) -> bool {
        self.cmp(other).is_eq()
    }
}

impl Eq for Junctions {
    ghost laws = { eq_by_cmp_equiv junctions_total };
}

impl PartialOrd for Junctions {
    ghost partial_cmp = { as_partial_cmp junctions_cmp };

    ghost laws = { po junctions_total (λ _ _. refl) };

    fn partial_cmp(&self, other: &Junctions) -> Option<Ordering> {
        Some(self.cmp(other))
    }
}

/// By the number of junctions, then junction by junction.
impl Ord for Junctions {
    ghost cmp = { junctions_cmp };

    ghost total = { junctions_total };

    ghost matches_partial_cmp = { λ _ _. refl };

    ghost matches_eq = { λ _ _. refl };

    fn cmp(&self, other: &Junctions) -> Ordering {
        let (ours, theirs) = (self.items(), other.items());
        ours.len().cmp(&theirs.len()).then(ours.cmp(theirs))
    }
}

/// Hashes what each junction says.
impl Hash for Junctions {
    ghost use Rattle.locations.specs.Hashing.{junctions_input};
    ghost use Rattle.locations.specs.HashLaws.{junctions_alike};

    ghost hash_input = { junctions_input };

    ghost respects_eq = { junctions_alike };

    fn hash<H: Hasher>(&self, state: &mut H) {
        for junction in self.items() {
            junction.feed(state);
        }
    }
}
