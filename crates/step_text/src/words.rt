//! The words of a report: kinds, causes, totals.

ghost use Rattle.std.specs.Prelude.{◌≡◌, ◌++◌, Some, codes};
ghost use Rattle.step_text.specs.Texts.{kind_name, cause_name, part_letter, call_name, call_result, total_text};

use asset_bundles::{Cause, Total};
use asset_lists::Kind;
use exec_base::Part;
use std::fmt;

/// The name of a kind.
pub(crate) fn kind_name(kind: Kind) -> &'static str
    ensures { result.now ≡ kind_name kind }
{
    match kind {
        Kind::Fungible => "fungible",
        Kind::Class => "class",
    }
}

/// The name of the cause of a burn.
pub(crate) fn cause_name(cause: Cause) -> &'static str
    ensures { result.now ≡ cause_name cause }
{
    match cause {
        Cause::BurnAsset => "BurnAsset",
        Cause::LostTeleport => "LostTeleport",
        Cause::Merged => "Merged",
        Cause::Saturated => "Saturated",
    }
}

/// The name of a call by its number in the set of calls.
pub(crate) fn call_name(index: u8) -> &'static str
    ensures { result.now ≡ call_name index }
{
    match index {
        0 => "remark",
        1 => "transfer",
        2 => "fail",
        _ => "batch",
    }
}

/// How a call ended.
pub(crate) fn call_result(ok: bool) -> &'static str
    ensures { result.now ≡ call_result ok }
{
    if ok { "ok" } else { "failed" }
}

/// Two spaces, and the letter of a program of a run.
pub(crate) fn part_head(part: Part) -> &'static str
    ensures { result.now ≡ codes "  " ++ part_letter part }
{
    match part {
        Part::Program => "  p",
        Part::Handler => "  h",
        Part::Appendix => "  a",
    }
}

/// A total as a report shows it: in decimal, or `over` where it passes 2^128-1.
#[derive(Clone, Copy)]
pub(crate) struct Shown(pub(crate) Total);

impl fmt::Display for Shown {
    ghost output = { λ shown. Some (total_text shown.0) };

    fn fmt<W: fmt::Write>(&self, f: &mut fmt::Formatter<W>) -> fmt::Result {
        let Total { high, low } = self.0;
        if high == 0 {
            write!(f, "{low}")
        } else {
            write!(f, "over")
        }
    }
}
