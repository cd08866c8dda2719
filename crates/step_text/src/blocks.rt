//! The lines of a chain under `balances`, `traps` and `queues`.

ghost use Rattle.std.specs.Prelude.{◌≡◌, ◌++◌, IfOk, OnOk, codes, flat_map, string_bytes};
ghost use Rattle.message_text.specs.Words.{asset_text};
ghost use Rattle.asset_lists.specs.declared.units.Asset.{Asset};
ghost use Rattle.asset_bundles.specs.Bundles.{held_assets};
ghost use Rattle.ledgers.specs.Ledgers.{account_goods};
ghost use Rattle.chain_queues.specs.Queues.{outgoing_of};
ghost use Rattle.step_text.specs.Lines.{balance_line, locked_line};
ghost use Rattle.step_text.specs.Blocks.{accounts_text, channel_text, checking_if, checking_text, locked_text, trap_text, trapped_text, queued_line};

use crate::laws::law_of_queued;
use crate::lines::{balance_head, checking_line, locked_line, queue_line, trap_line};
use asset_bundles::{Trap, TrapStore};
use asset_lists::Asset;
use asset_locks::{Lock, LockBook};
use chain_ids::ChainId;
use chain_queues::{Queue, Queued};
use ledgers::Ledger;
use message_text::push_asset_text;
use std::alloc::{AllocError, Global};
use trust_tables::AssetRow;

/// The lines of what a chain's accounts hold: accounts by bytes, and each one's assets in holding order.
#[tactic(auto, unfolding(crate::specs::Blocks::accounts_text))]
pub fn accounts_text(alloc: Global, chain: ChainId, ledger: &Ledger) -> Result<String, AllocError>
    ensures { IfOk result (λ text. string_bytes text ≡ accounts_text chain ledger.now.held) }
{
    let mut text = String::new(alloc);
    let mut after = None;
    while let Some(who) = ledger.next_account(after.as_ref()) {
        push_account(alloc, &mut text, chain, &who, ledger)?;
        after = Some(who);
    }
    Ok(text)
}

/// Appends the lines of an account.
fn push_account(
    alloc: Global,
    text: &mut String,
    chain: ChainId,
    who: &[u8; 32],
    ledger: &Ledger,
) -> Result<(), AllocError>
    ensures { OnOk result (string_bytes text.new
        ≡ string_bytes text.old ++ flat_map (balance_line chain who.now)
        (held_assets (account_goods who.now ledger.now.held))) }
{
    let assets = ledger.held(who)?;
    push_balances(alloc, text, chain, who, assets.as_slice())
}

/// Appends the lines of these assets of an account.
fn push_balances(
    alloc: Global,
    text: &mut String,
    chain: ChainId,
    who: &[u8; 32],
    assets: &[Asset],
) -> Result<(), AllocError>
    ensures { OnOk result (string_bytes text.new
        ≡ string_bytes text.old ++ flat_map (balance_line chain who.now) assets.now) }
{
    let head = balance_head(alloc, chain, who)?;
    for asset in assets {
        push_balance(alloc, text, &head, asset)?;
    }
    Ok(())
}

/// Appends the line of what an account holds of an asset, which begins with these words.
fn push_balance(
    alloc: Global,
    text: &mut String,
    head: &str,
    asset: &Asset,
) -> Result<(), AllocError>
    ensures { OnOk result (string_bytes text.new
        ≡ string_bytes text.old ++ (head.now ++ asset_text asset.now ++ codes "\n")) }
{
    text.push_str(head)?;
    push_asset_text(alloc, text, asset)?;
    text.push_str("\n")
}

/// The lines of a chain's traps, oldest first.
pub fn trapped_text(alloc: Global, chain: ChainId, store: &TrapStore) -> Result<String, AllocError>
    ensures { IfOk result (λ text. string_bytes text ≡ trapped_text chain store.now.traps) }
{
    let mut text = String::new(alloc);
    push_traps(alloc, &mut text, chain, store)?;
    Ok(text)
}

/// Appends the lines of traps.
fn push_traps(
    alloc: Global,
    text: &mut String,
    chain: ChainId,
    store: &TrapStore,
) -> Result<(), AllocError>
    ensures { OnOk result (string_bytes text.new
        ≡ string_bytes text.old ++ trapped_text chain store.now.traps) }
{
    for trap in store.traps() {
        push_trap(alloc, text, chain, trap)?;
    }
    Ok(())
}

/// Appends the line of a trap.
fn push_trap(
    alloc: Global,
    text: &mut String,
    chain: ChainId,
    trap: &Trap,
) -> Result<(), AllocError>
    ensures { OnOk result (string_bytes text.new
        ≡ string_bytes text.old ++ trap_text chain trap.now) }
{
    let assets = trap.goods.list()?;
    let line = trap_line(alloc, chain, trap.number, &trap.origin, assets.as_slice())?;
    text.push_str(&line)
}

/// The lines of a chain's checking accounts, in the order in which it lists the assets; `checking` has the amount for each, none where
/// the chain keeps none.
pub fn checking_text(
    alloc: Global,
    chain: ChainId,
    listed: &[AssetRow],
    checking: &[Option<u128>],
) -> Result<String, AllocError>
    ensures { IfOk result (λ text. string_bytes text
        ≡ checking_text chain listed.now checking.now) }
{
    let mut text = String::new(alloc);
    for place in 0..listed.len().min(checking.len()) {
        push_checking(alloc, &mut text, chain, &listed[place], checking[place])?;
    }
    Ok(text)
}

/// Appends the line of a checking account, where there is one.
fn push_checking(
    alloc: Global,
    text: &mut String,
    chain: ChainId,
    row: &AssetRow,
    amount: Option<u128>,
) -> Result<(), AllocError>
    ensures { OnOk result (string_bytes text.new
        ≡ string_bytes text.old ++ checking_if chain row.now amount) }
{
    match amount {
        None => Ok(()),
        Some(amount) => {
            let line = checking_line(alloc, chain, &row.id, amount)?;
            text.push_str(&line)
        }
    }
}

/// The lines of a chain's locks, by account, asset and unlocker.
pub fn locked_text(alloc: Global, chain: ChainId, book: &LockBook) -> Result<String, AllocError>
    ensures { IfOk result (λ text. string_bytes text ≡ locked_text chain book.now) }
{
    let mut text = String::new(alloc);
    push_locks(alloc, &mut text, chain, book.locks())?;
    Ok(text)
}

/// Appends the lines of locks.
fn push_locks(
    alloc: Global,
    text: &mut String,
    chain: ChainId,
    locks: &[Lock],
) -> Result<(), AllocError>
    ensures { OnOk result
        (string_bytes text.new ≡ string_bytes text.old ++ flat_map (locked_line chain) locks.now) }
{
    for lock in locks {
        let line = locked_line(alloc, chain, lock)?;
        text.push_str(&line)?;
    }
    Ok(())
}

/// The lines of the messages that wait in a channel of a chain, oldest first: the bytes that are kept, and so the programs that they
/// mean, spelled in the channel's version.
pub fn queue_text(alloc: Global, from: ChainId, queue: &Queue) -> Result<String, AllocError>
    ensures bytes { IfOk result (λ text. string_bytes text
        ≡ flat_map (queued_line from queue.now.channel.to) queue.now.waiting.items) }
    ensures channel { IfOk result (λ text. string_bytes text
        ≡ channel_text from (outgoing_of queue.now)) }
{
    // For the prover alone: the line of the bytes is that of the message that they mean.
    law_of_queued();
    let mut text = String::new(alloc);
    for place in 0..queue.waiting.len() {
        push_queued(
            alloc,
            &mut text,
            from,
            queue.channel.to,
            &queue.waiting[place],
        )?;
    }
    Ok(text)
}

/// Appends the line of a message that waits.
fn push_queued(
    alloc: Global,
    text: &mut String,
    from: ChainId,
    to: ChainId,
    queued: &Queued,
) -> Result<(), AllocError>
    ensures { OnOk result (string_bytes text.new
        ≡ string_bytes text.old ++ queued_line from to queued.now) }
{
    let line = queue_line(alloc, from, to, queued.number, queued.bytes.as_slice())?;
    text.push_str(&line)
}
