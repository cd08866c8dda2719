//! How much work a call is.

ghost use Rattle.std.specs.Prelude.{◌≡◌, ◌≤◌};
ghost use Rattle.call_dispatch.specs.Spelling.{AnyCall};
ghost use Rattle.call_dispatch.specs.Units.{units_of};

use crate::Call;

/// How many unit weights a call takes: 1, and for a batch 1 more than it has items. At most 9.
pub fn call_units(c: &Call) -> u32
    ensures units { result ≡ units_of c.now }
    ensures few { result ≤ 9 }
{
    match c {
        Call::Remark(_) | Call::Transfer { .. } | Call::Fail(_) => 1,
        Call::Batch(items) => 1 + items.items().len() as u32,
    }
}
