//! Sums of weights that fit.
ghost use Rattle.std.specs.Prelude.{◌≡◌, ◌+◌, ◌<◌, ◌^◌};
ghost use Rattle.exec_rules.specs.Machine.{weight_added};

use operands::Weight;

/// The sum of two weights, which fits.
pub(crate) fn added(a: Weight, b: Weight) -> Weight
    requires short { a.ref_time + b.ref_time < 2 ^ 64 }
    requires small { a.proof_size + b.proof_size < 2 ^ 64 }
    ensures { result ≡ weight_added a b }
{
    Weight {
        ref_time: a.ref_time + b.ref_time,
        proof_size: a.proof_size + b.proof_size,
    }
}
