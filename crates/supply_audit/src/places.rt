//! What a chain has of an asset, over the rows that list it. An asset is named by an id with the context from which it is seen.
ghost use Rattle.std.specs.Prelude.{◌≡◌, ◌&&◌, min, if◌then◌else◌};
ghost use Rattle.std.specs.List.{list_any};
ghost use Rattle.std.specs.Ordering.{eq_by_cmp};
ghost use Rattle.locations.specs.Order.{junctions_cmp};
ghost use Rattle.locations.specs.Chains.{path_of};
ghost use Rattle.asset_lists.specs.declared.units.AssetId.TheVariants.{Concrete};
ghost use Rattle.asset_lists.specs.Listed.{same_kind};
ghost use Rattle.asset_bundles.specs.Books.{most_burned};
ghost use Rattle.asset_bundles.specs.Totals.{total_value};
ghost use Rattle.ledgers.specs.Ledgers.{account_sum_of};
ghost use Rattle.trust_tables.specs.Chains.{path_of_site};
ghost use Rattle.law_coherence.specs.Networks.{is_native_role};
ghost use Rattle.law_coherence.specs.Networks as networks;
ghost use Rattle.chain_state.specs.PartOf.{part_of};
ghost use Rattle.supply_audit.specs.Places as places;
ghost use Rattle.supply_audit.specs.Places.{figure, over_rows, placed, row_share, chain_table};
ghost use Rattle.supply_audit.specs.Supply.{if_home};

use crate::figures::Figure;
use crate::messages::sent;
use crate::totals::none;
use asset_bundles::Total;
use asset_lists::{AssetId, Kind};
use chain_state::ChainState;
use ledgers::Ledger;
use locations::{Junctions, Location};
use network_coherence::same_path;
use trust_tables::{AssetRole, AssetRow};

/// What is at a chain under an id: in accounts, in traps, and in fees and parked bundles.
pub(crate) fn placed(chain: &ChainState, id: &AssetId, kind: Kind) -> Total
    ensures { total_value result ≡ min (placed (part_of chain.now) id.now kind) most_burned }
{
    let held = chain.ledger().sum(id, kind);
    let trapped = chain.traps().total(id, kind);
    held.sum(trapped).sum(chain.aside(id, kind))
}

/// What an account has under an id.
fn account(ledger: &Ledger, who: &[u8; 32], id: &AssetId, kind: Kind) -> u128
    ensures { result ≡ account_sum_of who.now (id.now, kind) ledger.now.held }
{
    match kind {
        Kind::Fungible => ledger.amount(who, id),
        Kind::Class => ledger.count(who, id),
    }
}

/// The asset that an id names.
pub(crate) fn named(id: &Location) -> AssetId
    ensures { result ≡ Concrete id.now }
{
    AssetId::Concrete(id.copy())
}

/// The location `Here`: room for a name. An id is a large value, so it is filled in place.
pub(crate) fn no_name() -> AssetId {
    AssetId::Concrete(Location::here())
}

/// A figure of a chain under an id. It saturates at 2^160-1. `name` has room for the id.
pub(crate) fn figure(
    name: &mut AssetId,
    figure: Figure,
    chain: &ChainState,
    id: &Location,
    kind: Kind,
) -> Total
    ensures { total_value result
        ≡ min (places.figure figure (part_of chain.now) (Concrete id.now) kind) most_burned }
{
    name.assign_place(id);
    match figure {
        Figure::Placed => placed(chain, name, kind),
        Figure::Burned => chain.burns().burned(name, kind),
        Figure::Account(who) => none().plus(account(chain.ledger(), &who, name, kind)),
        Figure::Sent(what, to) => sent(what, to, id, kind, chain.queues()),
    }
}

/// Whether two kinds are one.
fn same_kind(a: Kind, b: Kind) -> bool
    ensures { result ≡ same_kind a b }
{
    a == b
}

/// Whether a row is of the asset of this path and kind.
fn is_row_of(
    context: &Junctions,
    home: &Junctions,
    id: &Location,
    kind: Kind,
    row: &AssetRow,
) -> bool
    ensures { result ≡ (eq_by_cmp junctions_cmp (path_of context.now row.now.id)
        (path_of home.now id.now) && same_kind row.now.kind kind) }
{
    same_kind(row.kind, kind) && same_path(context, &row.id, home, id)
}

/// The junctions from the root of all networks to the chain.
fn context_of(chain: &ChainState) -> Junctions
    ensures { result ≡ path_of_site (part_of chain.now).site }
{
    chain.site().path()
}

/// What a row counts for.
fn row_share(
    name: &mut AssetId,
    which: Figure,
    chain: &ChainState,
    context: &Junctions,
    home: &Junctions,
    id: &Location,
    kind: Kind,
    row: &AssetRow,
) -> Total
    requires { context.now ≡ path_of_site (part_of chain.now).site }
    ensures { total_value result
        ≡ min (row_share (part_of chain.now) (path_of home.now id.now, kind)
        (places.figure which (part_of chain.now)) row.now) most_burned }
{
    if !is_row_of(context, home, id, kind, row) {
        return none();
    }
    figure(name, which, chain, &row.id, row.kind)
}

/// A figure of the asset of this path and kind, over the rows that list it. It saturates at 2^160-1.
pub(crate) fn over_rows(
    which: Figure,
    chain: &ChainState,
    home: &Junctions,
    id: &Location,
    kind: Kind,
) -> Total
    ensures { total_value result
        ≡ min (over_rows (part_of chain.now) (path_of home.now id.now, kind)
        (places.figure which (part_of chain.now))) most_burned }
{
    let context = context_of(chain);
    let mut name = no_name();
    let mut total = none();
    let rows = chain.rows();
    for row in rows {
        total = total.sum(row_share(&mut name, which, chain, &context, home, id, kind, row));
    }
    total
}

/// Whether a role is that of a native asset.
pub(crate) fn is_native(role: &AssetRole) -> bool
    ensures { result ≡ is_native_role role.now }
{
    match role {
        AssetRole::Native { .. } => true,
        AssetRole::Derivative { .. } => false,
    }
}

/// Whether a row lists the asset as native.
fn is_native_row(
    context: &Junctions,
    home: &Junctions,
    id: &Location,
    kind: Kind,
    row: &AssetRow,
) -> bool
    ensures { result ≡ (is_native_role row.now.role
        && (eq_by_cmp junctions_cmp (path_of context.now row.now.id) (path_of home.now id.now)
        && same_kind row.now.kind kind)) }
{
    is_native(&row.role) && is_row_of(context, home, id, kind, row)
}

/// Whether the asset is at home at a chain.
fn is_home(chain: &ChainState, home: &Junctions, id: &Location, kind: Kind) -> bool
    ensures { result ≡ networks.is_home (path_of home.now id.now, kind)
        (chain_table (part_of chain.now)) }
{
    let context = context_of(chain);
    let rows = chain.rows();
    rows.iter()
        .any(|row| is_native_row(&context, home, id, kind, row))
}

/// A figure of a chain, where the asset is at home there.
pub(crate) fn if_home(
    which: Figure,
    chain: &ChainState,
    home: &Junctions,
    id: &Location,
    kind: Kind,
) -> Total
    ensures { total_value result
        ≡ min (if_home (λ p. over_rows p (path_of home.now id.now, kind) (places.figure which p))
        (path_of home.now id.now, kind) (part_of chain.now)) most_burned }
{
    if is_home(chain, home, id, kind) {
        return over_rows(which, chain, home, id, kind);
    }
    none()
}
