//! The lines of what there is of each asset, kept with the figures that they were written with.
ghost use Rattle.std.specs.Prelude.{◌≡◌, ◌++◌, map, not, IfOk, IsTrue, OnOk, flat_map, string_bytes};
ghost use Rattle.std.specs.List.{list_all};
ghost use Rattle.asset_bundles.specs.Totals.{total_value};
ghost use Rattle.chain_state.specs.PartOf.{part_of};
ghost use Rattle.supply_audit.specs.Stale as stales;
ghost use Rattle.report_text.specs.Sheets.{kept_supply, renewed_supply, supply_written};

use crate::figures::{FIGURES, push_sum};
use crate::supplies::SupplyEntry;
use chain_state::ChainState;
use std::alloc::{AllocError, Global};
use std::marker::Model;
use supply_audit::{FigureReader, Supply, are_touched};

/// The line of an asset, as it was written last. Contracts see it as `KeptSupply`.
#[derive(Drop)]
pub(crate) struct SupplyLine {
    entry: SupplyEntry,
    found: Supply,
    text: String,
}

impl Model for SupplyLine {
    ghost use Rattle.std.specs.Prelude.{◌≡◌, string_bytes};
    ghost use Rattle.asset_bundles.specs.Totals.{total_value};
    ghost use Rattle.report_text.specs.Kept.{KeptSupply};
    ghost use Rattle.report_text.specs.Sheets.{supply_written};

    ghost Value = { KeptSupply };

    ghost view = { λ l. record {
      entry = l.entry;
      home = total_value l.found.home;
      flight = total_value l.found.flight;
      burned = total_value l.found.burned;
    } };

    ghost invariant = { λ l. string_bytes l.text ≡ supply_written (record {
      entry = l.entry;
      home = total_value l.found.home;
      flight = total_value l.found.flight;
      burned = total_value l.found.burned;
    }) };
}

/// The line of an asset with these figures.
fn line_text(alloc: Global, entry: &SupplyEntry, found: Supply) -> Result<String, AllocError>
    ensures { IfOk result (λ text. string_bytes text ≡ supply_written (record {
      entry = entry.now;
      home = total_value found.home;
      flight = total_value found.flight;
      burned = total_value found.burned;
    })) }
{
    let size = entry.beginning.len().saturating_add(FIGURES);
    let mut text = String::with_capacity(alloc, size)?;
    text.push_str(&entry.beginning)?;
    push_sum(&mut text, found.home)?;
    text.push_str(" flight ")?;
    push_sum(&mut text, found.flight)?;
    text.push_str(" burned ")?;
    push_sum(&mut text, found.burned)?;
    text.push_str("\n")?;
    Ok(text)
}

/// Whether two supplies are the same.
fn is_same_supply(one: Supply, other: Supply) -> bool
    ensures home { IsTrue result → total_value one.home ≡ total_value other.home }
    ensures flight { IsTrue result → total_value one.flight ≡ total_value other.flight }
    ensures burned { IsTrue result → total_value one.burned ≡ total_value other.burned }
    ensures same { total_value one.home ≡ total_value other.home
        → total_value one.flight ≡ total_value other.flight
        → total_value one.burned ≡ total_value other.burned → IsTrue result }
{
    one.home == other.home && one.flight == other.flight && one.burned == other.burned
}

impl SupplyLine {
    /// The line of an entry, with the figures of the reader's chains.
    fn of(
        alloc: Global,
        reader: &mut FigureReader<'_>,
        entry: SupplyEntry,
    ) -> Result<SupplyLine, AllocError>
        ensures chains { reader.new.chains.now ≡ reader.old.chains.now }
        ensures line { IfOk result (λ line. line
            ≡ kept_supply (map part_of reader.old.chains.now) entry) }
    {
        let found = reader.supply(entry.places.as_slice())?;
        let text = line_text(alloc, &entry, found)?;
        Ok(SupplyLine { entry, found, text })
    }

    /// Reads the figures anew where one of the asset's positions is at a chain that has changed, and writes the line anew where they are others.
    fn renew(
        &mut self,
        alloc: Global,
        reader: &mut FigureReader<'_>,
        stale: &[bool],
    ) -> Result<(), AllocError>
        ensures chains { reader.new.chains.now ≡ reader.old.chains.now }
        ensures line { OnOk result (self.new
            ≡ renewed_supply stale.now (map part_of reader.old.chains.now) self.old) }
    {
        if !are_touched(stale, self.entry.places.as_slice()) {
            return Ok(());
        }
        let found = reader.supply(self.entry.places.as_slice())?;
        if is_same_supply(self.found, found) {
            return Ok(());
        }
        let text = line_text(alloc, &self.entry, found)?;
        self.text = text;
        self.found = found;
        Ok(())
    }

    /// Whether none of the asset's positions is at a chain that has changed.
    fn is_current(&self, stale: &[bool]) -> bool
        ensures { result ≡ not (stales.are_touched stale.now self.now.entry.places) }
    {
        !are_touched(stale, self.entry.places.as_slice())
    }

    /// Appends the line.
    fn push(&self, text: &mut String) -> Result<(), AllocError>
        ensures { OnOk result (string_bytes text.new
            ≡ string_bytes text.old ++ supply_written self.now) }
    {
        text.push_str(&self.text)
    }
}

/// The lines of entries, with the figures of these chains.
pub(crate) fn supply_lines(
    alloc: Global,
    chains: &[ChainState],
    entries: Vec<SupplyEntry>,
) -> Result<Vec<SupplyLine>, AllocError>
    ensures { IfOk result (λ lines. lines.items
        ≡ map (kept_supply (map part_of chains.now)) entries.items) }
{
    let mut reader = FigureReader::of(alloc, chains);
    let mut lines = Vec::new(alloc);
    for entry in entries {
        let line = SupplyLine::of(alloc, &mut reader, entry)?;
        lines.push(line)?;
    }
    Ok(lines)
}

/// Renews each line.
pub(crate) fn renew_supplies(
    lines: &mut [SupplyLine],
    alloc: Global,
    chains: &[ChainState],
    stale: &[bool],
) -> Result<(), AllocError>
    ensures { OnOk result (lines.new
        ≡ map (renewed_supply stale.now (map part_of chains.now)) lines.old) }
{
    let mut reader = FigureReader::of(alloc, chains);
    for line in lines.iter_mut() {
        line.renew(alloc, &mut reader, stale)?;
    }
    Ok(())
}

/// Whether no line has a position at a chain that has changed.
pub(crate) fn are_supplies_current(lines: &[SupplyLine], stale: &[bool]) -> bool
    ensures { result ≡ list_all (λ line. not (stales.are_touched stale.now line.entry.places))
        lines.now }
{
    lines.iter().all(|line| line.is_current(stale))
}

/// For speed: how long the lines are together.
pub(crate) fn supplies_length(lines: &[SupplyLine]) -> usize {
    let mut length: usize = 0;
    for line in lines {
        length = length.saturating_add(line.text.len());
    }
    length
}

/// Appends the lines.
pub(crate) fn push_supply_lines(text: &mut String, lines: &[SupplyLine]) -> Result<(), AllocError>
    ensures { OnOk result (string_bytes text.new
        ≡ string_bytes text.old ++ flat_map supply_written lines.now) }
{
    for line in lines {
        line.push(text)?;
    }
    Ok(())
}
