//! The lines of a tree.
ghost use Rattle.std.specs.Prelude.{◌≡◌, ◌++◌, OnOk, string_bytes};
ghost use Rattle.message_text.specs.Lines.{indent, line, field};

use crate::names::{FieldName, name_text};
use std::alloc::AllocError;

/// Appends two spaces for each level.
fn push_indent(text: &mut String, level: u32) -> Result<(), AllocError>
    ensures { OnOk result (string_bytes text.new ≡ string_bytes text.old ++ indent level) }
{
    for _ in 0..level {
        text.push_str("  ")?;
    }
    Ok(())
}

/// Appends a line of these words.
pub(crate) fn push_line(text: &mut String, level: u32, words: &str) -> Result<(), AllocError>
    ensures { OnOk result (string_bytes text.new ≡ string_bytes text.old ++ line level words.now) }
{
    push_indent(text, level)?;
    text.push_str(words)?;
    text.push_str("\n")
}

/// Appends a field with its value.
pub(crate) fn push_field(
    text: &mut String,
    level: u32,
    name: FieldName,
    value: &str,
) -> Result<(), AllocError>
    ensures { OnOk result (string_bytes text.new
        ≡ string_bytes text.old ++ field level name value.now) }
{
    push_indent(text, level)?;
    text.push_str(name_text(name))?;
    text.push_str(" ")?;
    text.push_str(value)?;
    text.push_str("\n")
}
