//! What chains list: rows of one path, ids that aren't normal, and rows that a partner or a reserve doesn't list.
ghost use Rattle.std.specs.Prelude.{◌≡◌, ◌≤◌, ◌&&◌, length};
ghost use Rattle.std.specs.List.{list_any};
ghost use Rattle.std.specs.Ordering.{eq_by_cmp};
ghost use Rattle.locations.specs.Order.{junctions_cmp};
ghost use Rattle.locations.specs.Chains.{path_of};
ghost use Rattle.asset_lists.specs.Listed.{same_kind};
ghost use Rattle.chain_ids.specs.Chains as chain_ids;
ghost use Rattle.law_coherence.specs.Networks.{is_native_role};
ghost use Rattle.law_coherence.specs.Causes as causes;
ghost use Rattle.network_coherence.specs.Answers.{finding_of, document_table, tables_in};
ghost use Rattle.network_coherence.specs.Parts as parts;
ghost use Rattle.network_coherence.specs.Parts.{paths_twice, ids_not_normal};

use crate::paths::{context_of, is_asset, is_normal, same_chain, same_path};
use crate::{Incoherent, IncoherentCause};
use chain_ids::ChainId;
use locations::Junctions;
use network_spec::{ChainSpec, NetworkSpec};
use trust_tables::{AssetRole, AssetRow};

// ---- rows of one chain

/// Whether one of the later rows has the row's path.
fn is_repeated(spec: &NetworkSpec, chain: &ChainSpec, row: &AssetRow, later: &[AssetRow]) -> bool
    ensures { result ≡ list_any (causes.same_path (document_table spec.now chain.now) row.now)
        later.now }
{
    let context = context_of(spec, chain);
    later
        .iter()
        .any(|other| same_path(&context, &row.id, &context, &other.id))
}

/// Whether two rows of a chain have the same path.
fn has_path_twice(spec: &NetworkSpec, chain: &ChainSpec) -> bool
    ensures { result ≡ causes.has_path_twice (document_table spec.now chain.now) chain.now.assets }
{
    let mut rows = chain.assets.items();
    while let Some((row, later)) = rows.split_first() {
        if is_repeated(spec, chain, row, later) {
            return true;
        }
        rows = later;
    }
    false
}

/// The first chain with two rows of the same path.
pub(crate) fn path_twice(spec: &NetworkSpec) -> Option<Incoherent>
    ensures { finding_of result ≡ paths_twice (tables_in spec.now) }
{
    let chains = spec.chains.items();
    for chain in chains {
        if has_path_twice(spec, chain) {
            return Some(Incoherent {
                cause: IncoherentCause::PathTwice,
                first: chain.chain,
                second: chain.chain,
            });
        }
    }
    None
}

/// The first of a chain's rows whose id isn't the shortest name of its location.
fn chain_not_normal(spec: &NetworkSpec, chain: &ChainSpec) -> Option<Incoherent>
    ensures { finding_of result ≡ parts.id_not_normal (document_table spec.now chain.now) }
{
    let context = context_of(spec, chain);
    let rows = chain.assets.items();
    for row in rows {
        if !is_normal(&context, &row.id) {
            return Some(Incoherent {
                cause: IncoherentCause::IdNotNormal,
                first: chain.chain,
                second: chain.chain,
            });
        }
    }
    None
}

/// The first chain with an id that isn't the shortest name of its location.
pub(crate) fn id_not_normal(spec: &NetworkSpec) -> Option<Incoherent>
    ensures { finding_of result ≡ ids_not_normal (tables_in spec.now) }
{
    let chains = spec.chains.items();
    for chain in chains {
        if let Some(found) = chain_not_normal(spec, chain) {
            return Some(found);
        }
    }
    None
}

// ---- the row at another chain

/// Where a search among the rows begins: a few rows before a place. For speed: chains usually list an asset at about the same place.
fn begin_of(rows: &[AssetRow], place: usize) -> usize
    ensures { result ≤ length rows.now }
{
    rows.len().min(place.saturating_sub(4))
}

/// Whether a chain is one of these.
fn is_among(chains: &[ChainId], chain: ChainId) -> bool
    ensures { result ≡ list_any (λ partner. chain_ids.same_chain partner chain) chains.now }
{
    chains.iter().any(|other| same_chain(*other, chain))
}

/// Whether a role is that of a native asset with the chain as partner.
fn has_partner(chain: ChainId, role: &AssetRole) -> bool
    ensures { result ≡ causes.has_partner chain role.now }
{
    match role {
        AssetRole::Native { partners, .. } => is_among(partners.items(), chain),
        AssetRole::Derivative { .. } => false,
    }
}

/// Whether a role is that of a native asset.
pub(crate) fn is_native(role: &AssetRole) -> bool
    ensures { result ≡ is_native_role role.now }
{
    match role {
        AssetRole::Native { .. } => true,
        AssetRole::Derivative { .. } => false,
    }
}

/// Whether a row of another chain is of the row's asset, native, with the row's chain as partner.
fn is_back(
    home: &Junctions,
    chain: ChainId,
    row: &AssetRow,
    context: &Junctions,
    other: &AssetRow,
) -> bool
    ensures { result
        ≡ ((eq_by_cmp junctions_cmp (path_of context.now other.now.id) (path_of home.now row.now.id)
        && same_kind other.now.kind row.now.kind)
        && causes.has_partner chain other.now.role) }
{
    is_asset(context, &other.id, other.kind, home, row) && has_partner(chain, &other.role)
}

/// Whether one of these rows is of the row's asset, native, with the row's chain as partner.
fn some_back(
    home: &Junctions,
    chain: ChainId,
    row: &AssetRow,
    context: &Junctions,
    rows: &[AssetRow],
) -> bool
    ensures { result
        ≡ list_any (λ other. (eq_by_cmp junctions_cmp (path_of context.now other.id) (path_of home.now row.now.id)
        && same_kind other.kind row.now.kind)
        && causes.has_partner chain other.role) rows.now }
{
    rows.iter()
        .any(|other| is_back(home, chain, row, context, other))
}

/// Whether the second chain lists the row's asset as native with the first chain as partner. The search begins close to a place.
fn has_back(
    spec: &NetworkSpec,
    here: &ChainSpec,
    row: &AssetRow,
    place: usize,
    there: &ChainSpec,
) -> bool
    ensures { result ≡ parts.has_back (document_table spec.now here.now) row.now
        (document_table spec.now there.now) }
{
    let home = context_of(spec, here);
    let context = context_of(spec, there);
    let rows = there.assets.items();
    let (before, after) = rows.split_at(begin_of(rows, place));
    some_back(&home, here.chain, row, &context, after)
        || some_back(&home, here.chain, row, &context, before)
}

/// Whether the second chain is this one, and lists the row's asset as native with the first chain as partner.
fn lists_back(
    spec: &NetworkSpec,
    here: &ChainSpec,
    row: &AssetRow,
    place: usize,
    chain: ChainId,
    there: &ChainSpec,
) -> bool
    ensures { result ≡ causes.lists_back (document_table spec.now here.now) row.now chain
        (document_table spec.now there.now) }
{
    same_chain(there.chain, chain) && has_back(spec, here, row, place, there)
}

/// Whether one of these chains lists the row's asset so.
fn some_lists_back(
    spec: &NetworkSpec,
    here: &ChainSpec,
    row: &AssetRow,
    place: usize,
    chain: ChainId,
    chains: &[ChainSpec],
) -> bool
    ensures { result ≡ list_any
        (λ there. causes.lists_back (document_table spec.now here.now) row.now
        chain (document_table spec.now there)) chains.now }
{
    chains
        .iter()
        .any(|there| lists_back(spec, here, row, place, chain, there))
}

/// Whether the chain is there, and lists the row's asset as native with the row's chain as partner.
fn is_listed_back(
    spec: &NetworkSpec,
    here: &ChainSpec,
    row: &AssetRow,
    place: usize,
    chain: ChainId,
) -> bool
    ensures { result ≡ list_any (causes.lists_back (document_table spec.now here.now) row.now chain)
        (tables_in spec.now) }
{
    some_lists_back(spec, here, row, place, chain, spec.chains.items())
}

/// The first of a row's partners that doesn't list the asset as native with the row's chain as partner.
fn first_unlisted(
    spec: &NetworkSpec,
    here: &ChainSpec,
    row: &AssetRow,
    place: usize,
    partners: &[ChainId],
) -> Option<Incoherent>
    ensures { finding_of result ≡ parts.first_unlisted (tables_in spec.now)
        (document_table spec.now here.now) row.now partners.now }
{
    for partner in partners {
        if !is_listed_back(spec, here, row, place, *partner) {
            return Some(Incoherent {
                cause: IncoherentCause::PartnerUnlisted,
                first: here.chain,
                second: *partner,
            });
        }
    }
    None
}

/// A row's first partner that doesn't list the asset so; a derivative has no partners.
fn row_partner(
    spec: &NetworkSpec,
    here: &ChainSpec,
    row: &AssetRow,
    place: usize,
) -> Option<Incoherent>
    ensures { finding_of result ≡ causes.partner_unlisted (tables_in spec.now)
        (document_table spec.now here.now) row.now row.now.role }
{
    match &row.role {
        AssetRole::Native { partners, .. } => first_unlisted(
            spec,
            here,
            row,
            place,
            partners.items(),
        ),
        AssetRole::Derivative { .. } => None,
    }
}

/// The first such partner of a chain's rows.
fn chain_partner(spec: &NetworkSpec, here: &ChainSpec) -> Option<Incoherent>
    ensures { finding_of result ≡ parts.partners_unlisted_at (tables_in spec.now)
        (document_table spec.now here.now) }
{
    let rows = here.assets.items();
    let mut place: usize = 0;
    for row in rows {
        if let Some(found) = row_partner(spec, here, row, place) {
            return Some(found);
        }
        place = place.saturating_add(1);
    }
    None
}

/// The first partner that doesn't list the asset as native with the row's chain as partner.
pub(crate) fn partner_unlisted(spec: &NetworkSpec) -> Option<Incoherent>
    ensures { finding_of result ≡ parts.partners_unlisted (tables_in spec.now)
        (tables_in spec.now) }
{
    let chains = spec.chains.items();
    for here in chains {
        if let Some(found) = chain_partner(spec, here) {
            return Some(found);
        }
    }
    None
}

/// Whether a row of another chain is of the row's asset, and native.
fn is_source(home: &Junctions, row: &AssetRow, context: &Junctions, other: &AssetRow) -> bool
    ensures { result
        ≡ ((eq_by_cmp junctions_cmp (path_of context.now other.now.id) (path_of home.now row.now.id)
        && same_kind other.now.kind row.now.kind) && is_native_role other.now.role) }
{
    is_native(&other.role) && is_asset(context, &other.id, other.kind, home, row)
}

/// Whether one of these rows is of the row's asset, and native.
fn some_source(home: &Junctions, row: &AssetRow, context: &Junctions, rows: &[AssetRow]) -> bool
    ensures { result
        ≡ list_any (λ other. (eq_by_cmp junctions_cmp (path_of context.now other.id) (path_of home.now row.now.id)
        && same_kind other.kind row.now.kind) && is_native_role other.role) rows.now }
{
    rows.iter()
        .any(|other| is_source(home, row, context, other))
}

/// Whether the second chain lists the row's asset as native. The search begins close to a place.
fn has_source(
    spec: &NetworkSpec,
    here: &ChainSpec,
    row: &AssetRow,
    place: usize,
    there: &ChainSpec,
) -> bool
    ensures { result ≡ parts.has_source (document_table spec.now here.now) row.now
        (document_table spec.now there.now) }
{
    let home = context_of(spec, here);
    let context = context_of(spec, there);
    let rows = there.assets.items();
    let (before, after) = rows.split_at(begin_of(rows, place));
    some_source(&home, row, &context, after) || some_source(&home, row, &context, before)
}

/// Whether the second chain is this one, and lists the row's asset as native.
fn lists_native(
    spec: &NetworkSpec,
    here: &ChainSpec,
    row: &AssetRow,
    place: usize,
    chain: ChainId,
    there: &ChainSpec,
) -> bool
    ensures { result ≡ causes.lists_native (document_table spec.now here.now) row.now chain
        (document_table spec.now there.now) }
{
    same_chain(there.chain, chain) && has_source(spec, here, row, place, there)
}

/// Whether one of these chains lists the row's asset so.
fn some_lists_native(
    spec: &NetworkSpec,
    here: &ChainSpec,
    row: &AssetRow,
    place: usize,
    chain: ChainId,
    chains: &[ChainSpec],
) -> bool
    ensures { result ≡ list_any
        (λ there. causes.lists_native (document_table spec.now here.now) row.now
        chain (document_table spec.now there)) chains.now }
{
    chains
        .iter()
        .any(|there| lists_native(spec, here, row, place, chain, there))
}

/// Whether the chain is there, and lists the row's asset as native.
fn is_native_at(
    spec: &NetworkSpec,
    here: &ChainSpec,
    row: &AssetRow,
    place: usize,
    chain: ChainId,
) -> bool
    ensures { result ≡ list_any
        (causes.lists_native (document_table spec.now here.now) row.now chain)
        (tables_in spec.now) }
{
    some_lists_native(spec, here, row, place, chain, spec.chains.items())
}

/// A row's reserve, where it doesn't list the asset as native; a native asset has no reserve.
fn row_reserve(
    spec: &NetworkSpec,
    here: &ChainSpec,
    row: &AssetRow,
    place: usize,
) -> Option<Incoherent>
    ensures { finding_of result ≡ causes.reserve_unlisted (tables_in spec.now)
        (document_table spec.now here.now) row.now row.now.role }
{
    match &row.role {
        AssetRole::Native { .. } => None,
        AssetRole::Derivative { reserve } => {
            if is_native_at(spec, here, row, place, *reserve) {
                return None;
            }
            Some(Incoherent {
                cause: IncoherentCause::ReserveUnlisted,
                first: here.chain,
                second: *reserve,
            })
        }
    }
}

/// The first such reserve of a chain's rows.
fn chain_reserve(spec: &NetworkSpec, here: &ChainSpec) -> Option<Incoherent>
    ensures { finding_of result ≡ parts.reserves_unlisted_at (tables_in spec.now)
        (document_table spec.now here.now) }
{
    let rows = here.assets.items();
    let mut place: usize = 0;
    for row in rows {
        if let Some(found) = row_reserve(spec, here, row, place) {
            return Some(found);
        }
        place = place.saturating_add(1);
    }
    None
}

/// The first reserve that doesn't list the asset as native.
pub(crate) fn reserve_unlisted(spec: &NetworkSpec) -> Option<Incoherent>
    ensures { finding_of result ≡ parts.reserves_unlisted (tables_in spec.now)
        (tables_in spec.now) }
{
    let chains = spec.chains.items();
    for here in chains {
        if let Some(found) = chain_reserve(spec, here) {
            return Some(found);
        }
    }
    None
}
