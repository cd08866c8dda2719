//! What chains' locations and accounts, and the tests of trust, mean: laws, as contracts of functions that do nothing.
ghost use Rattle.std.specs.Prelude.{◌≡◌, ◌≢◌, ℕ, ◌↔◌, IsTrue, List, slice_get, position, option_and_then, Some, None, is_some};
ghost use Rattle.std.specs.Ordering.{eq_by_cmp};
ghost use Rattle.locations.specs.declared.grammar.NetworkId.{NetworkId};
ghost use Rattle.locations.specs.declared.relative.Location.{Location};
ghost use Rattle.locations.specs.Chains.{path_of, IsNear};
ghost use Rattle.asset_lists.specs.declared.units.Asset.{Asset};
ghost use Rattle.asset_lists.specs.Units.{unit_of};
ghost use Rattle.asset_lists.specs.Listed.{listed_cmp, listed_of, lists};
ghost use Rattle.chain_ids.specs.declared.chain.ChainId.{ChainId};
ghost use Rattle.trust_tables.specs.declared.chains.Site.{Site};
ghost use Rattle.trust_tables.specs.declared.rows.AssetRow.{AssetRow};
ghost use Rattle.trust_tables.specs.Chains.{location_of, path_of_site};
ghost use Rattle.trust_tables.specs.Accounts.{account_of, sovereign_account, IsSovereign, IsChain};
ghost use Rattle.trust_tables.specs.Trust.{listing, is_row_of, row_of, is_reserve, is_partner, IsRowOf, IsReserve, IsPartner};

/// A chain's location leads to the chain, and to no other one; it has at most one parent and one junction.
pub fn law_of_chain_locations()
    ensures own { (chain : ChainId) → location_of chain chain ≡ None }
    ensures leads { (network : NetworkId) (from to : ChainId) (l : Location)
        → location_of from to ≡ Some l
        → path_of (path_of_site (record { network = network; chain = from })) l
        ≡ path_of_site (record { network = network; chain = to }) }
    ensures one { (from a b : ChainId) (l : Location)
        → location_of from a ≡ Some l → location_of from b ≡ Some l → a ≡ b }
    ensures near { (network : NetworkId) (from to : ChainId) (l : Location)
        → location_of from to ≡ Some l
        → IsNear (path_of_site (record { network = network; chain = from })) l }
{}

/// The location of a chain at another has there the sovereign account of its form, and no two chains share one.
pub fn law_of_sovereign_accounts()
    ensures account { (site : Site) (chain : ChainId) (l : Location)
        → location_of site.chain chain ≡ Some l
        → account_of l site ≡ Some (sovereign_account site.chain chain) }
    ensures sovereign { (here chain : ChainId)
        → IsChain chain → IsSovereign (sovereign_account here chain) }
    ensures one { (here a b : ChainId) → IsChain a → IsChain b → a ≢ here → b ≢ here
        → sovereign_account here a ≡ sovereign_account here b → a ≡ b }
{}

/// What the tests of rows and of trust say.
pub fn law_of_exact_trust_tests()
    ensures row { (a : Asset) (r : AssetRow) → IsTrue (is_row_of a r) ↔ IsRowOf a r }
    ensures found { (rows : List AssetRow) (a : Asset) (r : AssetRow) → row_of rows a ≡ Some r
        → (i : ℕ) × (slice_get rows i ≡ Some r) × IsRowOf a r }
    ensures first { (rows : List AssetRow) (a : Asset)
        → option_and_then (slice_get rows) (position (is_row_of a) rows) ≡ row_of rows a }
    ensures reserve { (rows : List AssetRow) (site : Site) (a : Asset) (l : Location)
        → IsTrue (is_reserve rows site a l) ↔ IsReserve rows site a l }
    ensures partner { (rows : List AssetRow) (site : Site) (a : Asset) (l : Location)
        → IsTrue (is_partner rows site a l) ↔ IsPartner rows site a l }
{}

/// What a table lists: it lists an asset exactly where a row is found for it, and the row is the first that lists it.
pub fn law_of_listings()
    ensures listed { (rows : List AssetRow) (a : Asset)
        → lists (listing rows) (listed_of (unit_of a)) ≡ is_some (row_of rows a) }
    ensures place { (rows : List AssetRow) (a : Asset)
        → position (eq_by_cmp listed_cmp (listed_of (unit_of a))) (listing rows)
        ≡ position (is_row_of a) rows }
{}
