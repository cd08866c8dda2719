//! The lines of assets that are burned, and of what is trapped.
ghost use Rattle.std.specs.Prelude.{◌≡◌, ◌+◌, ◌≤◌, ◌++◌, map, IsTrue, IfOk, vec_len, vec_capacity};
ghost use Rattle.std.specs.List.{list_all};
ghost use Rattle.asset_lists.specs.Units.{unit_of};
ghost use Rattle.asset_lists.specs.Listed.{listed_of, lists};
ghost use Rattle.asset_bundles.specs.Books.{AreListed};
ghost use Rattle.asset_bundles.specs.Joins.{Excess};
ghost use Rattle.trust_tables.specs.Trust.{listing};
ghost use Rattle.exec_base.specs.Host.{burned_line, burned_lines, asset_path_in};
ghost use Rattle.chain_state.specs.PartOf.{part_of};
ghost use Rattle.chain_state.specs.Lines.{cause_by, trap_events_from};

use crate::ChainState;
use asset_bundles::{AssetBundle, Cause, Total};
use asset_lists::{Asset, AssetId, Fun};
use exec_base::Event;
use locations::Junctions;
use plain_lists::Boxed;
use std::alloc::AllocError;

/// Why the asset is burned: for the given cause, or as what a join gives up.
fn cause_by(given: Option<Cause>, asset: &Asset) -> Cause
    ensures { result ≡ cause_by given (unit_of asset.now) }
{
    match (given, &asset.fun) {
        (Some(cause), _) => cause,
        (None, Fun::Fungible(_)) => Cause::Saturated,
        (None, Fun::NonFungible(_)) => Cause::Merged,
    }
}

impl ChainState {
    /// The path of the id of a listed asset.
    pub(crate) fn path(&self, asset: &Asset) -> Junctions
        requires { IsTrue (lists (listing self.now.settings.rows) (listed_of (unit_of asset.now))) }
        ensures { result ≡ asset_path_in (part_of self.now) asset.now.id }
    {
        let AssetId::Concrete(place) = &asset.id else {
            unreachable!();
        };
        match place.path(&self.settings.site.path()) {
            Ok(path) => path,
            Err(_) => unreachable!(),
        }
    }

    /// The line of a listed asset that is burned.
    #[tactic(auto, using(crate::proofs::BurnedLines::small_total))]
    pub(crate) fn line(&self, asset: &Asset, cause: Option<Cause>) -> Result<Event, AllocError>
        requires { IsTrue (lists (listing self.now.settings.rows) (listed_of (unit_of asset.now))) }
        ensures { IfOk result (λ event. event
            ≡ burned_line (part_of self.now) (cause_by cause) asset.now) }
    {
        let path = Boxed::new(*self.events.allocator(), self.path(asset))?;
        let amount = Total {
            low: asset.amount(),
            high: 0,
        };
        Ok(Event::Burned {
            kind: asset.kind(),
            path,
            amount,
            cause: cause_by(cause, asset),
        })
    }

    /// The lines of listed assets that are burned.
    pub(crate) fn lines(
        &self,
        list: &[Asset],
        cause: Option<Cause>,
    ) -> Result<Vec<Event>, AllocError>
        requires { IsTrue (list_all
            (λ a. lists (listing self.now.settings.rows) (listed_of (unit_of a))) list.now) }
        ensures { IfOk result (λ lines. lines.items
            ≡ map (burned_line (part_of self.now) (cause_by cause)) list.now) }
    {
        let mut lines = Vec::new(*self.events.allocator());
        for asset in list {
            lines.push(self.line(asset, cause)?)?;
        }
        Ok(lines)
    }

    /// The lines of what a join would give up.
    pub(crate) fn excess_lines(
        &self,
        into: &AssetBundle,
        goods: &AssetBundle,
    ) -> Result<Vec<Event>, AllocError>
        requires { AreListed (listing self.now.settings.rows) (Excess into.now goods.now) }
        ensures { IfOk result (λ lines. lines.items
            ≡ burned_lines (part_of self.now) (cause_by None) (Excess into.now goods.now)) }
    {
        let assets = into.excess(goods)?;
        self.lines(assets.as_slice(), None)
    }

    /// The lines of goods that are burned by the instruction.
    pub(crate) fn burnt_lines(&self, goods: &AssetBundle) -> Result<Vec<Event>, AllocError>
        requires { AreListed (listing self.now.settings.rows) goods.now }
        ensures { IfOk result (λ lines. lines.items
            ≡ burned_lines (part_of self.now) (cause_by (Some Cause.BurnAsset)) goods.now) }
    {
        let assets = goods.list()?;
        self.lines(assets.as_slice(), Some(Cause::BurnAsset))
    }
}

/// Tells so many traps, from this number on, where there is room for them.
pub(crate) fn push_traps(events: &mut Vec<Event>, first: u64, count: usize)
    requires { vec_len events.old + count ≤ vec_capacity events.old }
    ensures { events.new.items ≡ events.old.items ++ trap_events_from count first }
{
    let mut number = first;
    for _ in 0..count {
        events.push_reserved(Event::Trapped { number });
        number = number.saturating_add(1);
    }
}
