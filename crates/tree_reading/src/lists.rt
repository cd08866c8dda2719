//! Rows and lists of rows.

ghost use Rattle.std.specs.Prelude.{◌≡◌, ◌<◌, ◌≤◌, ◌^◌, ◌++◌, ◌∷◌, List, ℕ, length, OnOk};
ghost use Rattle.message_text.specs.Lines.{line};
ghost use Rattle.tree_reading.specs.Rows.{IsWords, IsOutside};
ghost use Rattle.tree_reading.specs.Kinds.{Says};
ghost use Rattle.tree_reading.specs.Took.{Took, TookItems, AreItems, rows_text, list_said};

use crate::expected::{Expected, TreeFault};
use crate::kinds::{Words, put_words};
use crate::rows::Rows;
use crate::splits::after;
use operands::Version;
use scale_codec::Out;
use std::alloc::Global;

/// What is written: in which version, and where memory for it comes from.
#[derive(Clone, Copy)]
pub(crate) struct Form {
    pub(crate) alloc: Global,
    pub(crate) version: Version,
}

/// Appends what a text in the last row says; a refusal of the row where it is none of this kind.
pub(crate) fn put_text(
    form: Form,
    rows: &Rows<'_>,
    out: &mut Out,
    kind: Words,
    text: &str,
    expected: Expected,
) -> Result<(), TreeFault>
    ensures { (said : List ℕ) → Says form.version kind text.now said
        → Took rows.now.rest.now said result rows.now.rest.now out.old out.new }
{
    let done = put_words(form.alloc, out, form.version, kind, text)?;
    if done {
        Ok(())
    } else {
        Err(rows.wrong(expected))
    }
}

/// Appends what a row says.
pub(crate) fn put_row(
    form: Form,
    rows: &mut Rows<'_>,
    out: &mut Out,
    level: usize,
    kind: Words,
    expected: Expected,
) -> Result<(), TreeFault>
    ensures reads { (words said rest : List ℕ) → IsWords words → Says form.version kind words said
        → rows.old.rest.now ≡ line level words ++ rest
        → Took rest said result rows.new.rest.now out.old out.new }
    ensures shorter { OnOk result (length rows.new.rest.now < length rows.old.rest.now) }
{
    let words = rows.take(level, expected)?;
    put_text(form, rows, out, kind, words, expected)
}

/// Appends what each row of a list says, and tells how many there are.
fn put_items(
    form: Form,
    rows: &mut Rows<'_>,
    out: &mut Out,
    level: usize,
    kind: Words,
    expected: Expected,
) -> Result<u64, TreeFault>
    ensures reads { (items : List (List ℕ × List ℕ)) (rest : List ℕ)
        → AreItems form.version kind items → length items < 2 ^ 32 → IsOutside level rest
        → rows.old.rest.now ≡ rows_text level items ++ rest
        → TookItems rest items result rows.new.rest.now out.old out.new }
    ensures shorter { OnOk result (length rows.new.rest.now ≤ length rows.old.rest.now) }
{
    let mut count: u64 = 0;
    while rows.has_row(level) {
        match put_row(form, rows, out, level, kind, expected) {
            Ok(()) => count = count.saturating_add(1),
            Err(stop) => return Err(stop),
        }
    }
    Ok(count)
}

/// Appends the items of a list after their number, a row for each.
pub(crate) fn put_list(
    form: Form,
    rows: &mut Rows<'_>,
    out: &mut Out,
    level: usize,
    kind: Words,
    expected: Expected,
) -> Result<(), TreeFault>
    ensures reads { (items : List (List ℕ × List ℕ)) (rest : List ℕ)
        → AreItems form.version kind items → length items < 2 ^ 32 → IsOutside level rest
        → rows.old.rest.now ≡ rows_text level items ++ rest
        → Took rest (list_said items) result rows.new.rest.now out.old out.new }
    ensures shorter { OnOk result (length rows.new.rest.now ≤ length rows.old.rest.now) }
{
    let mut items = Out::new(form.alloc);
    let count = put_items(form, rows, &mut items, level, kind, expected)?;
    out.put_compact(u128::from(count))?;
    out.put_bytes(items.bytes())?;
    Ok(())
}
