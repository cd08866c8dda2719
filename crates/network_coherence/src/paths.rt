//! Paths of ids, and when two rows are of one asset.
ghost use Rattle.std.specs.Prelude.{List, ◌≡◌, ◌≢◌, ◌++◌, ◌&&◌, ◌↔◌, ◌≤◌, length, IsTrue};
ghost use Rattle.locations.specs.declared.grammar.Junction.{Junction};
ghost use Rattle.std.specs.Ordering.{eq_by_cmp};
ghost use Rattle.locations.specs.Order.{junctions_cmp};
ghost use Rattle.locations.specs.Chains as locations;
ghost use Rattle.locations.specs.Chains.{path_of, without_last};
ghost use Rattle.asset_lists.specs.Listed.{same_kind};
ghost use Rattle.chain_ids.specs.Chains.{same_chain};
ghost use Rattle.law_coherence.specs.Networks as networks;
ghost use Rattle.network_coherence.specs.Answers.{document_table};

use asset_lists::Kind;
use chain_ids::ChainId;
use locations::{Junction, Junctions, Location, are_apart};
use network_spec::{ChainSpec, NetworkSpec};
use trust_tables::{AssetRow, Site};

/// Whether two names are of one chain.
pub(crate) fn same_chain(a: ChainId, b: ChainId) -> bool
    ensures { result ≡ same_chain a b }
{
    match (a, b) {
        (ChainId::Relay, ChainId::Relay) => true,
        (ChainId::Para(a), ChainId::Para(b)) => a == b,
        _ => false,
    }
}

/// Whether two kinds are one.
pub(crate) fn same_kind(a: Kind, b: Kind) -> bool
    ensures { result ≡ same_kind a b }
{
    a == b
}

/// The junctions from the root of all networks to a chain of the network.
pub(crate) fn context_of(spec: &NetworkSpec, chain: &ChainSpec) -> Junctions
    ensures { result ≡ networks.context_of (document_table spec.now chain.now) }
{
    let site = Site {
        network: spec.network,
        chain: chain.chain,
    };
    site.path()
}

/// Whether two junctions are the same.
fn is_same(a: &Junction, b: &Junction) -> bool
    ensures { IsTrue result ↔ (a.now ≡ b.now) }
{
    a == b
}

/// Whether two lists of junctions are the same.
fn are_same(a: &[Junction], b: &[Junction]) -> bool
    ensures { IsTrue result ↔ (a.now ≡ b.now) }
{
    if a.len() != b.len() {
        return false;
    }
    for k in 0..a.len() {
        if !is_same(&a[k], &b[k]) {
            return false;
        }
    }
    true
}

/// Whether two lists are the same, each in two parts, of which the first list's front isn't the longer one.
fn is_same_split(
    front: &[Junction],
    back: &[Junction],
    long_front: &[Junction],
    short_back: &[Junction],
) -> bool
    requires { length front.now ≤ length long_front.now }
    ensures { IsTrue result ↔ (front.now ++ back.now ≡ long_front.now ++ short_back.now) }
{
    let (start, rest) = long_front.split_at(front.len());
    if !are_same(front, start) {
        return false;
    }
    if back.len() < rest.len() {
        return false;
    }
    let (middle, end) = back.split_at(rest.len());
    if !are_same(middle, rest) {
        return false;
    }
    are_same(end, short_back)
}

/// Whether two lists end with different numbers: whatever comes before them, the lists are then different. That is what paths differ in
/// most often.
fn ends_apart(a: &[Junction], b: &[Junction]) -> bool
    ensures { IsTrue result → (front other_front : List Junction)
        → front ++ a.now ≢ other_front ++ b.now }
{
    if a.is_empty() || b.is_empty() {
        return false;
    }
    are_apart(&a[a.len() - 1], &b[b.len() - 1])
}

/// Whether two lists are the same, each in two parts.
#[inline(never)]
fn is_same_list(
    front: &[Junction],
    back: &[Junction],
    other_front: &[Junction],
    other_back: &[Junction],
) -> bool
    ensures { IsTrue result ↔ (front.now ++ back.now ≡ other_front.now ++ other_back.now) }
{
    if front.len() <= other_front.len() {
        return is_same_split(front, back, other_front, other_back);
    }
    is_same_split(other_front, other_back, front, back)
}

/// The part of a chain's context that stays before an id's interior.
fn kept<'a>(context: &'a Junctions, id: &Location) -> &'a [Junction]
    ensures { result.now ≡ without_last id.now.parents context.now }
{
    let chain = context.items();
    let count = chain.len().saturating_sub(usize::from(id.parents));
    &chain[..count]
}

/// Whether two ids, each as seen from the chain of its context, have the same path. It takes no memory.
pub fn same_path(
    context: &Junctions,
    id: &Location,
    other_context: &Junctions,
    other_id: &Location,
) -> bool
    ensures { result ≡ eq_by_cmp junctions_cmp (path_of context.now id.now)
        (path_of other_context.now other_id.now) }
{
    let back = id.interior.items();
    let other_back = other_id.interior.items();
    if ends_apart(back, other_back) {
        return false;
    }
    let front = kept(context, id);
    let other_front = kept(other_context, other_id);
    is_same_list(front, back, other_front, other_back)
}

/// Whether an id's path and a kind are those of a row.
pub(crate) fn is_asset(
    context: &Junctions,
    id: &Location,
    kind: Kind,
    home: &Junctions,
    row: &AssetRow,
) -> bool
    ensures { result ≡ (eq_by_cmp junctions_cmp (path_of context.now id.now)
        (path_of home.now row.now.id) && same_kind kind row.now.kind) }
{
    same_kind(kind, row.kind) && same_path(context, id, home, &row.id)
}

/// Whether an id is the shortest name of its location.
pub(crate) fn is_normal(context: &Junctions, id: &Location) -> bool
    ensures { result ≡ locations.is_normal context.now id.now }
{
    id.is_normal(context)
}
