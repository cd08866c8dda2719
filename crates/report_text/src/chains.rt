//! What accounts hold and what is trapped, chain by chain.
ghost use Rattle.std.specs.Prelude.{◌≡◌, ◌++◌, flat_map, IfOk, OnOk, string_bytes};
ghost use Rattle.chain_state.specs.declared.state.ChainState.{ChainState};
ghost use Rattle.chain_state.specs.PartOf.{part_of};
ghost use Rattle.step_text.specs.Blocks.{balances_of, chain_traps_text};

use chain_state::ChainState;
use std::alloc::{AllocError, Global};
use step_text::{accounts_text, checking_text, locked_text, trapped_text};

/// What the accounts of all chains hold, their checking accounts, and their locks: a line each. An `Err` is out of memory.
pub fn balances_text(alloc: Global, chains: &[ChainState]) -> Result<String, AllocError>
    ensures { IfOk result (λ text. string_bytes text
        ≡ flat_map (λ (c : ChainState). balances_of (part_of c)) chains.now) }
{
    let mut text = String::new(alloc);
    for place in 0..chains.len() {
        push_balances(alloc, &mut text, &chains[place])?;
    }
    Ok(text)
}

/// Appends those of a chain.
fn push_balances(alloc: Global, text: &mut String, chain: &ChainState) -> Result<(), AllocError>
    ensures { OnOk result (string_bytes text.new
        ≡ string_bytes text.old ++ balances_of (part_of chain.now)) }
{
    let lines = chain_balances(alloc, chain)?;
    text.push_str(&lines)
}

/// What the accounts of a chain hold, its checking accounts, and its locks: a line each. An `Err` is out of memory.
pub fn chain_balances(alloc: Global, chain: &ChainState) -> Result<String, AllocError>
    ensures { IfOk result (λ text. string_bytes text ≡ balances_of (part_of chain.now)) }
{
    let name = chain.site().chain;
    let mut text = accounts_text(alloc, name, chain.ledger())?;
    let checking = checking_text(alloc, name, chain.rows(), chain.checkings())?;
    text.push_str(&checking)?;
    let locked = locked_text(alloc, name, chain.lock_book())?;
    text.push_str(&locked)?;
    Ok(text)
}

/// What is trapped at all chains: the lines of each trap. An `Err` is out of memory.
pub fn traps_text(alloc: Global, chains: &[ChainState]) -> Result<String, AllocError>
    ensures { IfOk result (λ text. string_bytes text
        ≡ flat_map (λ (c : ChainState). chain_traps_text (part_of c)) chains.now) }
{
    let mut text = String::new(alloc);
    for place in 0..chains.len() {
        push_traps(alloc, &mut text, &chains[place])?;
    }
    Ok(text)
}

/// Appends those of a chain.
fn push_traps(alloc: Global, text: &mut String, chain: &ChainState) -> Result<(), AllocError>
    ensures { OnOk result (string_bytes text.new
        ≡ string_bytes text.old ++ chain_traps_text (part_of chain.now)) }
{
    let lines = chain_traps(alloc, chain)?;
    text.push_str(&lines)
}

/// What is trapped at a chain: a line each. An `Err` is out of memory.
pub fn chain_traps(alloc: Global, chain: &ChainState) -> Result<String, AllocError>
    ensures { IfOk result (λ text. string_bytes text ≡ chain_traps_text (part_of chain.now)) }
{
    trapped_text(alloc, chain.site().chain, chain.traps())
}
