//! Fields: a name, and what follows it.

ghost use Rattle.std.specs.Prelude.{◌≡◌, ◌≢◌, ◌<◌, ◌≤◌, ◌+◌, ◌^◌, ◌++◌, ◌∷◌, List, ℕ, length, map, codes, OnOk, MatchOption, MatchResult};
ghost use Rattle.message_text.specs.Lines.{line};
ghost use Rattle.tree_reading.specs.declared.kinds.Words.TheVariants.{Asset, Wild, Location, Number64, Weight};
ghost use Rattle.tree_reading.specs.Rows.{IsWords, IsOutside};
ghost use Rattle.tree_reading.specs.Kinds.{Says};
ghost use Rattle.tree_reading.specs.Took.{Took, AreItems, rows_text, list_said};
ghost use Rattle.tree_reading.specs.FieldRows.{SaysAnswer, SaysField, SaysFields};

use crate::expected::{Expected, TreeFault};
use crate::kinds::Words;
use crate::lists::{Form, put_list, put_text};
use crate::rows::Rows;
use crate::splits::{after, is_text};
use crate::table::{Field, Kind};
use scale_codec::Out;

/// Goes past a row that has this name alone.
pub(crate) fn take_name(
    rows: &mut Rows<'_>,
    level: usize,
    name: &'static str,
) -> Result<(), TreeFault>
    ensures reads { (rest : List ℕ) → IsWords name.now
        → rows.old.rest.now ≡ line level name.now ++ rest
        → MatchResult result (λ _. rows.new.rest.now ≡ rest) (λ _. ⊥) }
    ensures shorter { OnOk result (length rows.new.rest.now < length rows.old.rest.now) }
{
    let words = rows.take(level, Expected::Field(name))?;
    if is_text(words, name) {
        Ok(())
    } else {
        Err(rows.wrong(Expected::Field(name)))
    }
}

/// What follows a name and a space.
fn value_of<'a>(words: &'a str, name: &str) -> Option<&'a str>
    ensures { MatchOption result ((rest : List ℕ) → words.now ≢ name.now ++ 32 ∷ rest)
        (λ x. words.now ≡ name.now ++ 32 ∷ x.now) }
{
    after(after(words, name)?, " ")
}

/// Appends what follows the name of a field in its row.
fn put_value(
    form: Form,
    rows: &Rows<'_>,
    out: &mut Out,
    kind: Words,
    words: &str,
    name: &'static str,
) -> Result<(), TreeFault>
    ensures { (value said : List ℕ) → words.now ≡ name.now ++ 32 ∷ value
        → Says form.version kind value said
        → Took rows.now.rest.now said result rows.now.rest.now out.old out.new }
{
    match value_of(words, name) {
        Some(text) => put_text(form, rows, out, kind, text, Expected::Field(name)),
        None => Err(rows.wrong(Expected::Field(name))),
    }
}

/// Appends a field of one row.
pub(crate) fn put_field_row(
    form: Form,
    rows: &mut Rows<'_>,
    out: &mut Out,
    level: usize,
    name: &'static str,
    kind: Words,
) -> Result<(), TreeFault>
    ensures reads { (value said rest : List ℕ) → IsWords (name.now ++ 32 ∷ value)
        → Says form.version kind value said
        → rows.old.rest.now ≡ line level (name.now ++ 32 ∷ value) ++ rest
        → Took rest said result rows.new.rest.now out.old out.new }
    ensures shorter { OnOk result (length rows.new.rest.now < length rows.old.rest.now) }
{
    let words = rows.take(level, Expected::Field(name))?;
    put_value(form, rows, out, kind, words, name)
}

/// Appends a list of assets below its name.
pub(crate) fn put_assets(
    form: Form,
    rows: &mut Rows<'_>,
    out: &mut Out,
    level: usize,
    name: &'static str,
) -> Result<(), TreeFault>
    requires { level < 64 }
    ensures reads { (items : List (List ℕ × List ℕ)) (rest : List ℕ) → IsWords name.now
        → AreItems form.version Asset items → length items < 2 ^ 32 → IsOutside (level + 1) rest
        → rows.old.rest.now ≡ line level name.now ++ (rows_text (level + 1) items ++ rest)
        → Took rest (list_said items) result rows.new.rest.now out.old out.new }
    ensures shorter { OnOk result (length rows.new.rest.now < length rows.old.rest.now) }
{
    take_name(rows, level, name)?;
    put_list(form, rows, out, level + 1, Words::Asset, Expected::Asset)
}

/// Appends a filter: a list of assets below its name, or a wildcard behind it.
fn put_filter(
    form: Form,
    rows: &mut Rows<'_>,
    out: &mut Out,
    level: usize,
    name: &'static str,
) -> Result<(), TreeFault>
    requires { level < 64 }
    ensures assets { (items : List (List ℕ × List ℕ)) (rest : List ℕ) → IsWords name.now
        → AreItems form.version Asset items → length items < 2 ^ 32 → IsOutside (level + 1) rest
        → rows.old.rest.now ≡ line level name.now ++ (rows_text (level + 1) items ++ rest)
        → Took rest (0 ∷ list_said items) result rows.new.rest.now out.old out.new }
    ensures wild { (value said rest : List ℕ) → IsWords (name.now ++ 32 ∷ value)
        → Says form.version Wild value said
        → rows.old.rest.now ≡ line level (name.now ++ 32 ∷ value) ++ rest
        → Took rest (1 ∷ said) result rows.new.rest.now out.old out.new }
    ensures shorter { OnOk result (length rows.new.rest.now < length rows.old.rest.now) }
{
    let words = rows.take(level, Expected::Field(name))?;
    if is_text(words, name) {
        out.put_u8(0)?;
        return put_list(form, rows, out, level + 1, Words::Asset, Expected::Asset);
    }
    out.put_u8(1)?;
    put_value(form, rows, out, Words::Wild, words, name)
}

/// Appends where a response goes, what it answers, and what it may weigh.
fn put_info(
    form: Form,
    rows: &mut Rows<'_>,
    out: &mut Out,
    level: usize,
    name: &'static str,
) -> Result<(), TreeFault>
    requires { level < 64 }
    ensures reads { (place query most place_said query_said most_said rest : List ℕ)
        → IsWords name.now → IsWords (codes "destination" ++ 32 ∷ place)
        → IsWords (codes "query_id" ++ 32 ∷ query) → IsWords (codes "max_weight" ++ 32 ∷ most)
        → Says form.version Location place place_said → Says form.version Number64 query query_said
        → Says form.version Weight most most_said
        → rows.old.rest.now ≡ line level name.now
        ++ (line (level + 1) (codes "destination" ++ 32 ∷ place)
        ++ (line (level + 1) (codes "query_id" ++ 32 ∷ query)
        ++ (line (level + 1) (codes "max_weight" ++ 32 ∷ most) ++ rest)))
        → Took rest (place_said ++ query_said ++ most_said) result rows.new.rest.now out.old out.new }
    ensures shorter { OnOk result (length rows.new.rest.now < length rows.old.rest.now) }
{
    take_name(rows, level, name)?;
    put_field_row(form, rows, out, level + 1, "destination", Words::Location)?;
    put_field_row(form, rows, out, level + 1, "query_id", Words::Number64)?;
    put_field_row(form, rows, out, level + 1, "max_weight", Words::Weight)
}

/// Appends a response, of which this is said on the row of its name; the rows below are at this level.
fn put_answer(
    form: Form,
    rows: &mut Rows<'_>,
    out: &mut Out,
    level: usize,
    text: &str,
    name: &'static str,
) -> Result<(), TreeFault>
    ensures reads { (below said rest : List ℕ) → SaysAnswer form.version level text.now below said
        → IsOutside level rest → rows.old.rest.now ≡ below ++ rest
        → Took rest said result rows.new.rest.now out.old out.new }
    ensures shorter { OnOk result (length rows.new.rest.now ≤ length rows.old.rest.now) }
{
    match text {
        "Null" => {
            out.put_u8(0)?;
            Ok(())
        }
        "Assets" => {
            out.put_u8(1)?;
            put_list(form, rows, out, level, Words::Asset, Expected::Asset)
        }
        "PalletsInfo" => {
            out.put_u8(4)?;
            put_list(form, rows, out, level, Words::Pallet, Expected::Pallet)
        }
        _ => put_text(form, rows, out, Words::Valued, text, Expected::Field(name)),
    }
}

/// Appends a response.
fn put_response(
    form: Form,
    rows: &mut Rows<'_>,
    out: &mut Out,
    level: usize,
    name: &'static str,
) -> Result<(), TreeFault>
    requires { level < 64 }
    ensures reads { (value below said rest : List ℕ) → IsWords (name.now ++ 32 ∷ value)
        → SaysAnswer form.version (level + 1) value below said → IsOutside (level + 1) rest
        → rows.old.rest.now ≡ line level (name.now ++ 32 ∷ value) ++ (below ++ rest)
        → Took rest said result rows.new.rest.now out.old out.new }
    ensures shorter { OnOk result (length rows.new.rest.now < length rows.old.rest.now) }
{
    let words = rows.take(level, Expected::Field(name))?;
    match value_of(words, name) {
        Some(text) => put_answer(form, rows, out, level + 1, text, name),
        None => Err(rows.wrong(Expected::Field(name))),
    }
}

/// Appends a field of an instruction.
fn put_field(
    form: Form,
    rows: &mut Rows<'_>,
    out: &mut Out,
    level: usize,
    name: &'static str,
    kind: Kind,
) -> Result<(), TreeFault>
    requires { level < 64 }
    ensures reads { (text said rest : List ℕ) → SaysField form.version kind level name.now text said
        → IsOutside (level + 1) rest → rows.old.rest.now ≡ text ++ rest
        → Took rest said result rows.new.rest.now out.old out.new }
    ensures shorter { OnOk result (length rows.new.rest.now < length rows.old.rest.now) }
{
    match kind {
        Kind::Row(words) => put_field_row(form, rows, out, level, name, words),
        Kind::Assets => put_assets(form, rows, out, level, name),
        Kind::Filter => put_filter(form, rows, out, level, name),
        Kind::Info => put_info(form, rows, out, level, name),
        Kind::Response => put_response(form, rows, out, level, name),
    }
}

/// Appends the fields of an instruction.
pub(crate) fn put_fields(
    form: Form,
    rows: &mut Rows<'_>,
    out: &mut Out,
    level: usize,
    fields: &[Field],
) -> Result<(), TreeFault>
    requires { level < 64 }
    ensures reads { (text said rest : List ℕ)
        → SaysFields form.version level (map (λ f. (f.0.now, f.1)) fields.now) text said
        → IsOutside (level + 1) rest → rows.old.rest.now ≡ text ++ rest
        → Took rest said result rows.new.rest.now out.old out.new }
    ensures shorter { OnOk result (length rows.new.rest.now ≤ length rows.old.rest.now) }
{
    for field in fields {
        let (name, kind) = *field;
        put_field(form, rows, out, level, name, kind)?;
    }
    Ok(())
}
