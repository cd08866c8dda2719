//! The lines of what backs each derivative, kept with the figures that they were written with.
ghost use Rattle.std.specs.Prelude.{◌≡◌, ◌++◌, ◌||◌, map, not, IfOk, IsTrue, OnOk, flat_map, string_bytes};
ghost use Rattle.std.specs.List.{list_all};
ghost use Rattle.asset_bundles.specs.Totals.{total_value};
ghost use Rattle.chain_state.specs.PartOf.{part_of};
ghost use Rattle.supply_audit.specs.Covers.{own_touched, kept_touched};
ghost use Rattle.report_text.specs.Sheets.{kept_backing, renewed_backing, backing_written};

use crate::backings::BackingEntry;
use crate::figures::{FIGURES, push_sum};
use chain_state::ChainState;
use std::alloc::{AllocError, Global};
use std::marker::Model;
use supply_audit::{CoverFigures, FigureReader, touched};

/// The line of a derivative, as it was written last. Contracts see it as `KeptBacking`.
#[derive(Drop)]
pub(crate) struct BackingLine {
    entry: BackingEntry,
    found: CoverFigures,
    text: String,
}

impl Model for BackingLine {
    ghost use Rattle.std.specs.Prelude.{◌≡◌, string_bytes};
    ghost use Rattle.asset_bundles.specs.Totals.{total_value};
    ghost use Rattle.report_text.specs.Kept.{KeptBacking};
    ghost use Rattle.report_text.specs.Sheets.{backing_written};

    ghost Value = { KeptBacking };

    ghost view = { λ l. record {
      entry = l.entry;
      held = total_value l.found.held;
      coming = total_value l.found.coming;
      standing = total_value l.found.standing;
    } };

    ghost invariant = { λ l. string_bytes l.text ≡ backing_written (record {
      entry = l.entry;
      held = total_value l.found.held;
      coming = total_value l.found.coming;
      standing = total_value l.found.standing;
    }) };
}

/// The line of a derivative with these figures.
fn line_text(alloc: Global, entry: &BackingEntry, found: CoverFigures) -> Result<String, AllocError>
    ensures { IfOk result (λ text. string_bytes text ≡ backing_written (record {
      entry = entry.now;
      held = total_value found.held;
      coming = total_value found.coming;
      standing = total_value found.standing;
    })) }
{
    let owed = found.standing.sum(found.coming);
    let size = entry.beginning.len().saturating_add(FIGURES);
    let mut text = String::with_capacity(alloc, size)?;
    text.push_str(&entry.beginning)?;
    push_sum(&mut text, found.held)?;
    text.push_str(" owed ")?;
    push_sum(&mut text, owed)?;
    text.push_str("\n")?;
    Ok(text)
}

/// Whether a derivative's figures are the same.
fn are_same_figures(one: CoverFigures, other: CoverFigures) -> bool
    ensures held { IsTrue result → total_value one.held ≡ total_value other.held }
    ensures coming { IsTrue result → total_value one.coming ≡ total_value other.coming }
    ensures standing { IsTrue result → total_value one.standing ≡ total_value other.standing }
    ensures same { total_value one.held ≡ total_value other.held
        → total_value one.coming ≡ total_value other.coming
        → total_value one.standing ≡ total_value other.standing → IsTrue result }
{
    one.held == other.held && one.coming == other.coming && one.standing == other.standing
}

impl BackingLine {
    /// The line of an entry, with the figures of the reader's chains.
    fn of(
        alloc: Global,
        reader: &mut FigureReader<'_>,
        entry: BackingEntry,
    ) -> Result<BackingLine, AllocError>
        ensures chains { reader.new.chains.now ≡ reader.old.chains.now }
        ensures line { IfOk result (λ line. line
            ≡ kept_backing (map part_of reader.old.chains.now) entry) }
    {
        let found = reader.figures(&entry.cover)?;
        let text = line_text(alloc, &entry, found)?;
        Ok(BackingLine { entry, found, text })
    }

    /// Reads those figures anew that depend on a chain that has changed, and writes the line anew where they are others.
    fn renew(
        &mut self,
        alloc: Global,
        reader: &mut FigureReader<'_>,
        stale: &[bool],
    ) -> Result<(), AllocError>
        ensures chains { reader.new.chains.now ≡ reader.old.chains.now }
        ensures line { OnOk result (self.new
            ≡ renewed_backing stale.now (map part_of reader.old.chains.now) self.old) }
    {
        let found = reader.renewed(stale, &self.entry.cover, self.found)?;
        if are_same_figures(self.found, found) {
            return Ok(());
        }
        let text = line_text(alloc, &self.entry, found)?;
        self.text = text;
        self.found = found;
        Ok(())
    }

    /// Whether no position of the derivative or of what covers it is at a chain that has changed.
    fn is_current(&self, stale: &[bool]) -> bool
        ensures { result ≡ not (own_touched stale.now self.now.entry.cover
            || kept_touched stale.now self.now.entry.cover) }
    {
        let (own, kept) = touched(stale, &self.entry.cover);
        !(own || kept)
    }

    /// Appends the line.
    fn push(&self, text: &mut String) -> Result<(), AllocError>
        ensures { OnOk result (string_bytes text.new
            ≡ string_bytes text.old ++ backing_written self.now) }
    {
        text.push_str(&self.text)
    }
}

/// The lines of entries, with the figures of these chains.
pub(crate) fn backing_lines(
    alloc: Global,
    chains: &[ChainState],
    entries: Vec<BackingEntry>,
) -> Result<Vec<BackingLine>, AllocError>
    ensures { IfOk result (λ lines. lines.items
        ≡ map (kept_backing (map part_of chains.now)) entries.items) }
{
    let mut reader = FigureReader::of(alloc, chains);
    let mut lines = Vec::new(alloc);
    for entry in entries {
        let line = BackingLine::of(alloc, &mut reader, entry)?;
        lines.push(line)?;
    }
    Ok(lines)
}

/// Renews each line.
pub(crate) fn renew_backings(
    lines: &mut [BackingLine],
    alloc: Global,
    chains: &[ChainState],
    stale: &[bool],
) -> Result<(), AllocError>
    ensures { OnOk result (lines.new
        ≡ map (renewed_backing stale.now (map part_of chains.now)) lines.old) }
{
    let mut reader = FigureReader::of(alloc, chains);
    for line in lines.iter_mut() {
        line.renew(alloc, &mut reader, stale)?;
    }
    Ok(())
}

/// Whether no line has a position at a chain that has changed.
pub(crate) fn are_backings_current(lines: &[BackingLine], stale: &[bool]) -> bool
    ensures { result ≡ list_all (λ line. not (own_touched stale.now line.entry.cover
        || kept_touched stale.now line.entry.cover)) lines.now }
{
    lines.iter().all(|line| line.is_current(stale))
}

/// For speed: how long the lines are together.
pub(crate) fn backings_length(lines: &[BackingLine]) -> usize {
    let mut length: usize = 0;
    for line in lines {
        length = length.saturating_add(line.text.len());
    }
    length
}

/// Appends the lines.
pub(crate) fn push_backing_lines(text: &mut String, lines: &[BackingLine]) -> Result<(), AllocError>
    ensures { OnOk result (string_bytes text.new
        ≡ string_bytes text.old ++ flat_map backing_written lines.now) }
{
    for line in lines {
        line.push(text)?;
    }
    Ok(())
}
