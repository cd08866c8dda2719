//! Goods that are joined, and goods that are burned.
ghost use Rattle.std.specs.Prelude.{◌≡◌};
ghost use Rattle.asset_bundles.specs.Books.{AreListed};
ghost use Rattle.asset_bundles.specs.Joins.{Excess};
ghost use Rattle.trust_tables.specs.Trust.{listing};
ghost use Rattle.exec_base.specs.Answers.{Keeps, JoinedInto};
ghost use Rattle.exec_base.specs.Host.{bundles_joined, burnt};
ghost use Rattle.chain_state.specs.PartOf.{part_of};

use crate::ChainState;
use asset_bundles::{AssetBundle, Cause};

impl ChainState {
    /// Joins goods into a bundle, and books what it can't hold.
    pub(crate) fn join(
        &mut self,
        into: &mut AssetBundle,
        goods: AssetBundle,
    ) -> Result<(), AssetBundle>
        requires listed { AreListed (listing (part_of self.old).rows) (Excess into.old goods) }
        ensures step { Keeps goods (bundles_joined (part_of self.old) into.old goods)
            (part_of self.old) result (part_of self.new) }
        ensures into { JoinedInto goods into.old result into.new }
    {
        let Ok(mut lines) = self.excess_lines(into, &goods) else {
            return Err(goods);
        };
        if self.pending_events.reserve(lines.len()).is_err() {
            return Err(goods);
        }
        into.join(goods, &mut self.book)?;
        match self.pending_events.append(&mut lines) {
            Ok(()) => Ok(()),
            Err(_) => unreachable!(),
        }
    }

    /// Burns goods.
    pub(crate) fn burn(&mut self, goods: AssetBundle) -> Result<(), AssetBundle>
        requires listed { AreListed (listing (part_of self.old).rows) goods }
        ensures step { Keeps goods (burnt (part_of self.old) goods) (part_of self.old) result
            (part_of self.new) }
    {
        let Ok(mut lines) = self.burnt_lines(&goods) else {
            return Err(goods);
        };
        match self.pending_events.append(&mut lines) {
            Ok(()) => {
                goods.burn(&mut self.book, Cause::BurnAsset);
                Ok(())
            }
            Err(_) => Err(goods),
        }
    }
}
