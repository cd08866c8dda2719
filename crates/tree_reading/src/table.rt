//! The fields of the instructions, in the order of the XCM format.

ghost use Rattle.std.specs.Prelude.{◌≡◌, ◌≢◌, ◌<◌, ℕ, map, MatchOption};
ghost use Rattle.xcm_program.specs.Names.{instruction_name_at};
ghost use Rattle.tree_reading.specs.Table.{fields_at_index, nests};

use crate::kinds::Words;
use crate::splits::is_text;
use xcm_program::instruction_name_at;

/// What a field has for a value.
#[derive(Clone, Copy, Debug, PartialEq, Eq)]
pub(crate) enum Kind {
    /// What one row says.
    Row(Words),
    /// A list of assets, a line for each.
    Assets,
    /// A list of assets, or a wildcard.
    Filter,
    /// Where a response goes.
    Info,
    /// A response.
    Response,
}

/// A field: its name, and the kind of its value.
pub(crate) type Field = (&'static str, Kind);

/// How many instructions there are.
const INSTRUCTIONS: u8 = 48;

/// The index of the instruction of a name.
pub(crate) fn index_of_name(name: &str) -> Option<u8>
    ensures { MatchOption result ((k : ℕ) → k < 48 → name.now ≢ instruction_name_at k)
        (λ n. (n < 48) × (name.now ≡ instruction_name_at n)) }
{
    for index in 0..INSTRUCTIONS {
        if is_text(name, instruction_name_at(index)) {
            return Some(index);
        }
    }
    None
}

/// Whether a program is inside the instruction of an index.
pub(crate) fn is_nesting(index: u8) -> bool
    ensures { result ≡ nests index }
{
    matches!(index, 5 | 14 | 16 | 17 | 21 | 22 | 38)
}

/// The fields of the instruction of an index, but for the program inside.
#[tactic(auto, unfolding(crate::specs::Table::fields_at_index))]
pub(crate) fn fields_at(index: u8) -> &'static [Field]
    requires { index < 48 }
    ensures { map (λ f. (f.0.now, f.1)) result.now ≡ fields_at_index index }
{
    match index {
        0 => &[("assets", Kind::Assets)],
        1 => &[("assets", Kind::Assets)],
        2 => &[("assets", Kind::Assets)],
        3 => &[
            ("query_id", Kind::Row(Words::Number64)),
            ("response", Kind::Response),
            ("max_weight", Kind::Row(Words::Weight)),
            ("querier", Kind::Row(Words::LocationOrNone)),
        ],
        4 => &[
            ("assets", Kind::Assets),
            ("beneficiary", Kind::Row(Words::Location)),
        ],
        5 => &[
            ("assets", Kind::Assets),
            ("dest", Kind::Row(Words::Location)),
        ],
        6 => &[
            ("origin_kind", Kind::Row(Words::OriginKind)),
            ("require_weight_at_most", Kind::Row(Words::Weight)),
            ("call", Kind::Row(Words::Bytes)),
        ],
        7 => &[
            ("sender", Kind::Row(Words::Number32)),
            ("max_message_size", Kind::Row(Words::Number32)),
            ("max_capacity", Kind::Row(Words::Number32)),
        ],
        8 => &[("recipient", Kind::Row(Words::Number32))],
        9 => &[
            ("initiator", Kind::Row(Words::Number32)),
            ("sender", Kind::Row(Words::Number32)),
            ("recipient", Kind::Row(Words::Number32)),
        ],
        10 => &[],
        11 => &[("interior", Kind::Row(Words::Path))],
        12 => &[("info", Kind::Info)],
        13 => &[
            ("assets", Kind::Filter),
            ("beneficiary", Kind::Row(Words::Location)),
        ],
        14 => &[
            ("assets", Kind::Filter),
            ("dest", Kind::Row(Words::Location)),
        ],
        15 => &[
            ("give", Kind::Filter),
            ("want", Kind::Assets),
            ("maximal", Kind::Row(Words::Flag)),
        ],
        16 => &[
            ("assets", Kind::Filter),
            ("reserve", Kind::Row(Words::Location)),
        ],
        17 => &[
            ("assets", Kind::Filter),
            ("dest", Kind::Row(Words::Location)),
        ],
        18 => &[("info", Kind::Info), ("assets", Kind::Filter)],
        19 => &[
            ("fees", Kind::Row(Words::Asset)),
            ("limit", Kind::Row(Words::Limit)),
        ],
        20 => &[],
        21 => &[],
        22 => &[],
        23 => &[],
        24 => &[
            ("assets", Kind::Assets),
            ("ticket", Kind::Row(Words::Location)),
        ],
        25 => &[("code", Kind::Row(Words::Number64))],
        26 => &[
            ("query_id", Kind::Row(Words::Number64)),
            ("max_response_weight", Kind::Row(Words::Weight)),
        ],
        27 => &[],
        28 => &[("assets", Kind::Assets)],
        29 => &[("assets", Kind::Assets)],
        30 => &[("origin", Kind::Row(Words::LocationOrNone))],
        31 => &[("error", Kind::Row(Words::Failure))],
        32 => &[("status", Kind::Row(Words::Status))],
        33 => &[
            ("module_name", Kind::Row(Words::Bytes)),
            ("info", Kind::Info),
        ],
        34 => &[
            ("index", Kind::Row(Words::Number32)),
            ("name", Kind::Row(Words::Bytes)),
            ("module_name", Kind::Row(Words::Bytes)),
            ("crate_major", Kind::Row(Words::Number32)),
            ("min_crate_minor", Kind::Row(Words::Number32)),
        ],
        35 => &[("info", Kind::Info)],
        36 => &[],
        37 => &[("junction", Kind::Row(Words::Junction))],
        38 => &[
            ("network", Kind::Row(Words::Network)),
            ("destination", Kind::Row(Words::Path)),
        ],
        39 => &[
            ("asset", Kind::Row(Words::Asset)),
            ("unlocker", Kind::Row(Words::Location)),
        ],
        40 => &[
            ("asset", Kind::Row(Words::Asset)),
            ("target", Kind::Row(Words::Location)),
        ],
        41 => &[
            ("asset", Kind::Row(Words::Asset)),
            ("owner", Kind::Row(Words::Location)),
        ],
        42 => &[
            ("asset", Kind::Row(Words::Asset)),
            ("locker", Kind::Row(Words::Location)),
        ],
        43 => &[("jit_withdraw", Kind::Row(Words::Flag))],
        44 => &[("topic", Kind::Row(Words::Topic))],
        45 => &[],
        46 => &[("target", Kind::Row(Words::Location))],
        _ => &[
            ("limit", Kind::Row(Words::Limit)),
            ("check_origin", Kind::Row(Words::LocationOrNone)),
        ],
    }
}
