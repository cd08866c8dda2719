//! Which assets come from a chain that isn't trusted with them.
ghost use Rattle.std.specs.Prelude.{◌≡◌};
ghost use Rattle.exec_base.specs.Host as host;
ghost use Rattle.exec_base.specs.Host.{first_fault};
ghost use Rattle.trust_tables.specs.Trust.{row_of};
ghost use Rattle.std.specs.Prelude.{is_some};
ghost use Rattle.chain_state.specs.PartOf.{part_of};

use crate::ChainState;
use asset_lists::Asset;
use locations::Location;
use operands::XcmError;
use std::slice::from_ref;
use trust_tables::{AssetRow, find_row, is_partner, is_reserve};

impl ChainState {
    /// Whether the chain lists the asset.
    #[tactic(auto, using(crate::proofs::ChainRows::found_row))]
    pub(crate) fn has_row(&self, asset: &Asset) -> bool
        ensures { result ≡ is_some (row_of self.now.settings.rows asset.now) }
    {
        find_row(self.settings.rows.items(), asset).is_some()
    }

    /// The asset's row as a list, or no row where it has none. For speed it is found by the asset's number in the ledger, which lists
    /// what the rows list.
    fn own_row(&self, asset: &Asset) -> &[AssetRow]
        ensures { row_of result.now asset.now ≡ row_of self.now.settings.rows asset.now }
    {
        match self.ledger.number_of(&asset.id, asset.kind()) {
            Some(number) => match self.settings.rows.items().get(number as usize) {
                Some(row) => from_ref(row),
                None => &[],
            },
            None => &[],
        }
    }

    /// Why the chain at that location isn't trusted with the asset.
    fn trust_fault(&self, from: &Location, teleport: bool, asset: &Asset) -> Option<XcmError>
        ensures { result ≡ host.trust_fault (part_of self.now) from.now teleport asset.now }
    {
        let rows = self.own_row(asset);
        if teleport {
            if is_partner(rows, &self.settings.site, asset, from) {
                return None;
            }
            return Some(XcmError::UntrustedTeleportLocation);
        }
        if is_reserve(rows, &self.settings.site, asset, from) {
            return None;
        }
        Some(XcmError::UntrustedReserveLocation)
    }

    /// Why the chain at that location isn't trusted with the first of these assets with which it isn't.
    pub(crate) fn trust_refusal(
        &self,
        from: &Location,
        teleport: bool,
        list: &[Asset],
    ) -> Option<XcmError>
        ensures { result ≡ first_fault (host.trust_fault (part_of self.now) from.now teleport)
            list.now }
    {
        for asset in list {
            if let Some(error) = self.trust_fault(from, teleport, asset) {
                return Some(error);
            }
        }
        None
    }
}
