//! The words and sums of the block's lines.
ghost use Rattle.std.specs.Prelude.{◌≡◌, ◌++◌, ℕ, min, OnOk, string_bytes};
ghost use Rattle.asset_bundles.specs.Books.{most_burned};
ghost use Rattle.asset_bundles.specs.Totals.{total_value};
ghost use Rattle.chain_ids.specs.Texts.{chain_text};
ghost use Rattle.step_text.specs.Texts.{kind_name, total_text};
ghost use Rattle.report_text.specs.Sums.{sum_text};

use asset_bundles::Total;
use asset_lists::Kind;
use chain_ids::ChainId;
use std::alloc::AllocError;

/// The name of a kind.
pub(crate) fn kind_name(kind: Kind) -> &'static str
    ensures { result.now ≡ kind_name kind }
{
    match kind {
        Kind::Fungible => "fungible",
        Kind::Class => "class",
    }
}

/// Bytes for the beginnings of most lines, so that they aren't moved while they grow.
pub(crate) const ROOM: usize = 96;

/// Bytes for the figures and words behind the beginnings of most lines.
pub(crate) const FIGURES: usize = 40;

/// Appends the text of a chain.
pub(crate) fn push_chain(text: &mut String, chain: ChainId) -> Result<(), AllocError>
    ensures { OnOk result (string_bytes text.new ≡ string_bytes text.old ++ chain_text chain) }
{
    match chain {
        ChainId::Relay => text.push_str("relay"),
        ChainId::Para(number) => write!(text, "{number}"),
    }
}

/// Appends a total: in decimal, or `over` where it passes 2^128-1.
fn push_total(text: &mut String, total: Total) -> Result<(), AllocError>
    ensures { OnOk result (string_bytes text.new ≡ string_bytes text.old ++ total_text total) }
{
    let Total { high, low } = total;
    if high == 0 {
        text.push_str(itoa::Buffer::new().format(low))
    } else {
        text.push_str("over")
    }
}

/// Appends the sum of which this is the total, which saturates.
pub(crate) fn push_sum(text: &mut String, total: Total) -> Result<(), AllocError>
    ensures { OnOk result ((n : ℕ) → total_value total ≡ min n most_burned
        → string_bytes text.new ≡ string_bytes text.old ++ sum_text n) }
{
    push_total(text, total)
}
