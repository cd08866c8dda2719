//! The lines of blocks.

ghost use Rattle.std.specs.Prelude.{◌≡◌, ◌++◌, IfOk, codes, string_bytes};
ghost use Rattle.chain_ids.specs.Texts.{chain_text};
ghost use Rattle.location_wire.specs.Texts.{hex_text};
ghost use Rattle.step_text.specs.Lines.{checking_line, locked_line, trap_line, queue_line, supply_line, backing_line};

use crate::assets::assets_text;
use crate::words::{Shown, kind_name};
use crate::{Backing, Supply};
use asset_lists::{Asset, Kind};
use asset_locks::Lock;
use chain_ids::ChainId;
use location_wire::{location_text, path_text};
use locations::{Junctions, Location};
use message_text::hex_text;
use std::alloc::{AllocError, Global};
use std::fmt::Write;

/// Bytes for most lines of blocks.
const ROOM: usize = 192;

/// The words that begin the line of what an account holds of an asset.
pub(crate) fn balance_head(
    alloc: Global,
    chain: ChainId,
    account: &[u8; 32],
) -> Result<String, AllocError>
    ensures { IfOk result (λ text. string_bytes text
        ≡ codes "  balance " ++ chain_text chain ++ codes " " ++ hex_text account.now
        ++ codes " ") }
{
    let account = hex_text(alloc, account.as_slice())?;
    let mut text = String::with_capacity(alloc, ROOM)?;
    write!(text, "  balance {chain} {account} ")?;
    Ok(text)
}

/// The line of the checking account of an asset that a chain lists under this id; the amount is in the asset's smallest unit.
pub fn checking_line(
    alloc: Global,
    chain: ChainId,
    id: &Location,
    amount: u128,
) -> Result<String, AllocError>
    ensures { IfOk result (λ text. string_bytes text ≡ checking_line chain id.now amount) }
{
    let id = location_text(alloc, id)?;
    let mut text = String::with_capacity(alloc, ROOM)?;
    write!(text, "  checking {chain} {id} {amount}\n")?;
    Ok(text)
}

/// The line of a lock: whose asset is locked, so much of it, and who may unlock it.
pub fn locked_line(alloc: Global, chain: ChainId, lock: &Lock) -> Result<String, AllocError>
    ensures { IfOk result (λ text. string_bytes text ≡ locked_line chain lock.now) }
{
    let account = hex_text(alloc, lock.who.as_slice())?;
    let id = location_text(alloc, &lock.id)?;
    let unlocker = location_text(alloc, &lock.unlocker)?;
    let amount = lock.amount;
    let mut text = String::with_capacity(alloc, ROOM)?;
    write!(
        text,
        "  locked {chain} {account} {id} {amount} {unlocker}\n"
    )?;
    Ok(text)
}

/// The line of a trap: its number, who may claim it, and what it has.
pub fn trap_line(
    alloc: Global,
    chain: ChainId,
    number: u64,
    origin: &Location,
    assets: &[Asset],
) -> Result<String, AllocError>
    ensures { IfOk result (λ text. string_bytes text
        ≡ trap_line chain number origin.now assets.now) }
{
    let origin = location_text(alloc, origin)?;
    let assets = assets_text(alloc, assets)?;
    let mut text = String::with_capacity(alloc, ROOM)?;
    write!(text, "  trap {chain} {number} {origin}: {assets}\n")?;
    Ok(text)
}

/// The line of a message that waits: its channel, its number there, and its bytes.
pub fn queue_line(
    alloc: Global,
    from: ChainId,
    to: ChainId,
    number: u64,
    bytes: &[u8],
) -> Result<String, AllocError>
    ensures { IfOk result (λ text. string_bytes text ≡ queue_line from to number bytes.now) }
{
    let digits = hex_text(alloc, bytes)?;
    let mut text = String::with_capacity(alloc, ROOM)?;
    write!(text, "  queue {from} {to} {number} {digits}\n")?;
    Ok(text)
}

/// The line of where an asset is.
pub fn supply_line(
    alloc: Global,
    kind: Kind,
    path: &Junctions,
    supply: &Supply,
) -> Result<String, AllocError>
    ensures { IfOk result (λ text. string_bytes text ≡ supply_line kind path.now supply.now) }
{
    let kind = kind_name(kind);
    let path = path_text(alloc, path)?;
    let home = Shown(supply.home);
    let flight = Shown(supply.flight);
    let burned = Shown(supply.burned);
    let mut text = String::with_capacity(alloc, ROOM)?;
    write!(
        text,
        "  supply {kind} {path} home {home} flight {flight} burned {burned}\n"
    )?;
    Ok(text)
}

/// The line of what backs a chain's derivative.
pub fn backing_line(
    alloc: Global,
    chain: ChainId,
    kind: Kind,
    path: &Junctions,
    backing: &Backing,
) -> Result<String, AllocError>
    ensures { IfOk result (λ text. string_bytes text
        ≡ backing_line chain kind path.now backing.now) }
{
    let kind = kind_name(kind);
    let path = path_text(alloc, path)?;
    let held = Shown(backing.held);
    let owed = Shown(backing.owed);
    let mut text = String::with_capacity(alloc, ROOM)?;
    write!(
        text,
        "  backing {chain} {kind} {path} held {held} owed {owed}\n"
    )?;
    Ok(text)
}
