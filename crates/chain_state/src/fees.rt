//! What a chain keeps of fees: delivery fees, the slot of an instruction's fee, purchases of weight, and what is settled when a run ends.

pub(crate) mod aside;
pub(crate) mod delivery_fees;
pub(crate) mod fee_excess;
pub(crate) mod row;
pub(crate) mod rows;
pub(crate) mod settling;
pub(crate) mod shares;
pub(crate) mod weights;
pub(crate) mod wide;
