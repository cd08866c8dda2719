//! Calls of the chain, which move amounts between its accounts.
ghost use Rattle.std.specs.Prelude.{◌≡◌, vec_capacity};
ghost use Rattle.exec_base.specs.Calls.{call_index, is_success, Dispatches};
ghost use Rattle.chain_state.specs.PartOf.{part_of};
ghost use Rattle.chain_state.specs.Calls.{shortage_above_floor};

use crate::ChainState;
use asset_lists::{AssetId, Kind};
use call_dispatch::{Call, CallEnd, Mover, ShiftFault, dispatch};
use exec_base::Event;
use row_ledger::shift_row;
use std::alloc::AllocError;

/// The number of a call in the set of calls.
fn index_of(call: &Call) -> u8
    ensures { result ≡ call_index call.now }
{
    match call {
        Call::Remark(_) => 0,
        Call::Transfer { .. } => 1,
        Call::Fail(_) => 2,
        Call::Batch(_) => 3,
    }
}

/// Whether a call succeeded.
fn is_success(end: CallEnd) -> bool
    ensures { result ≡ is_success end }
{
    match end {
        CallEnd::Success => true,
        CallEnd::Error(_) => false,
    }
}

/// The line of a call that ended so.
fn line_of(call: &Call, end: CallEnd) -> Event
    ensures { result ≡ Event.Called (call_index call.now) (is_success end) }
{
    Event::Called {
        index: index_of(call),
        ok: is_success(end),
    }
}

impl ChainState {
    /// What the account may give of a fungible row above its floor, where that is less than the amount.
    fn shortage_above_floor(&self, row: u32, who: &[u8; 32], amount: u128) -> Option<u128>
        ensures { result ≡ shortage_above_floor (part_of self.now) row who.now amount }
    {
        let found = self.settings.rows.items().get(row as usize)?;
        let Kind::Fungible = found.kind else {
            return None;
        };
        let has = self.ledger.amount(who, &AssetId::Concrete(found.id.copy()));
        let may_give = has.saturating_sub(self.locked.floor(who, &found.id));
        if amount <= may_give {
            return None;
        }
        Some(may_give)
    }
}

impl Mover for ChainState {
    ghost use Rattle.std.specs.Prelude.{ℕ};
    ghost use Rattle.exec_base.specs.Part.{ChainPart};
    ghost use Rattle.exec_base.specs.Calls.{floors_of};
    ghost use Rattle.law_hosts.proofs.Lemmas.{floors_kept};
    ghost use Rattle.row_ledger.specs.RowAccounts.{fungible_rows, row_amounts};
    ghost use Rattle.chain_state.specs.Calls.{beside_calls};
    ghost use Rattle.chain_state.specs.Known.{apart_there, floors_there};

    ghost amounts = { λ s. row_amounts s.settings.rows s.ledger.held };

    ghost floors = { λ s. floors_of (part_of s) };

    ghost rows = { λ s. fungible_rows s.settings.rows };

    ghost Other = { ChainPart × ℕ };

    ghost other = { λ s. (beside_calls (part_of s), vec_capacity s.pending_events) };

    ghost kept = { λ s. floors_kept (part_of s) (apart_there s) (floors_there s) };

    fn shift(
        &mut self,
        row: u32,
        from: &[u8; 32],
        to: &[u8; 32],
        amount: u128,
    ) -> Result<(), ShiftFault> {
        if let Some(have) = self.shortage_above_floor(row, from, amount) {
            return Err(ShiftFault::NotEnough { have });
        }
        let alloc = *self.events.allocator();
        let rows = self.settings.rows.items();
        shift_row(alloc, &mut self.ledger, rows, row, from, to, amount)
    }
}

impl ChainState {
    /// Does a call for an account, and keeps the line back that tells of it. Where memory is refused, a prefix of a batch may have been done.
    pub(crate) fn dispatch(&mut self, who: &[u8; 32], call: &Call) -> Result<CallEnd, AllocError>
        ensures step { Dispatches (part_of self.old).calls (part_of self.old) who.now call.now
            result
            (part_of self.new) }
    {
        if !self.settings.calls {
            return Ok(CallEnd::Error(0));
        }
        self.pending_events.reserve(1)?;
        let end = dispatch(self, who, call)?;
        self.pending_events.push_reserved(line_of(call, end));
        Ok(end)
    }
}
