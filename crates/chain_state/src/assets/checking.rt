//! Checking accounts: how much of an asset may be at its other homes, row by row.
ghost use Rattle.std.specs.Prelude.{◌≡◌, ℕ, Option, option_and_then, slice_get};
ghost use Rattle.exec_base.specs.Host as host;
ghost use Rattle.exec_base.specs.Host.{changed_all, first_fault};
ghost use Rattle.chain_state.specs.PartOf.{part_of};
ghost use Rattle.chain_state.specs.Checked.{change_by};

use crate::ChainState;
use crate::assets::checking_lists::change_all;
use asset_lists::Asset;
use operands::XcmError;
use trust_tables::find_row;

impl ChainState {
    /// The amount of the checking account of the asset's row; none where the row has none.
    fn checking_of(&self, asset: &Asset) -> Option<u128>
        ensures { result ≡ host.checking_of (part_of self.now) asset.now }
    {
        let place = find_row(self.settings.rows.items(), asset)?;
        if place >= self.checking.len() {
            return None;
        }
        self.checking[place]
    }

    /// Why the checking account of the asset's row can't fall by the amount.
    fn lower_fault(&self, asset: &Asset) -> Option<XcmError>
        ensures { result ≡ host.lower_fault (part_of self.now) asset.now }
    {
        match self.checking_of(asset) {
            Some(amount) if amount < asset.amount() => Some(XcmError::NotWithdrawable),
            _ => None,
        }
    }

    /// Why the checking accounts can't fall by the first of these assets by which they can't.
    pub(crate) fn lower_refusal(&self, list: &[Asset]) -> Option<XcmError>
        ensures { result ≡ first_fault (host.lower_fault (part_of self.now)) list.now }
    {
        for asset in list {
            if let Some(error) = self.lower_fault(asset) {
                return Some(error);
            }
        }
        None
    }

    /// Why the checking account of the asset's row can't rise by the amount.
    fn raise_fault(&self, asset: &Asset) -> Option<XcmError>
        ensures { result ≡ host.raise_fault (part_of self.now) asset.now }
    {
        match self.checking_of(asset) {
            Some(amount) if u128::MAX - amount < asset.amount() => Some(XcmError::NotDepositable),
            _ => None,
        }
    }

    /// Why the checking accounts can't rise by the first of these assets by which they can't.
    pub(crate) fn raise_refusal(&self, list: &[Asset]) -> Option<XcmError>
        ensures { result ≡ first_fault (host.raise_fault (part_of self.now)) list.now }
    {
        for asset in list {
            if let Some(error) = self.raise_fault(asset) {
                return Some(error);
            }
        }
        None
    }

    /// Changes the checking accounts of the rows of these assets.
    pub(crate) fn change_checking(&mut self, list: &[Asset], rises: bool)
        ensures room { self.new.pending_events ≡ self.old.pending_events }
        ensures step { part_of self.new
            ≡ record (part_of self.old) {
              checking = changed_all (change_by rises) list.now
                  (part_of self.old).rows (part_of self.old).checking;
            } }
    {
        change_all(
            self.settings.rows.items(),
            self.checking.as_mut_slice(),
            list,
            rises,
        );
    }

    /// The amount of the checking account of the row of this index; none where the row has none, or there is no such row.
    pub fn checking(&self, row: usize) -> Option<u128>
        ensures { result ≡ option_and_then
            (λ (c : Option ℕ). c) (slice_get (part_of self.now).checking row) }
    {
        if row >= self.checking.len() {
            return None;
        }
        self.checking[row]
    }
}
