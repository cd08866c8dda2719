//! What programs weigh.
ghost use Rattle.std.specs.Prelude.{◌≡◌, ◌<◌, ◌+◌, ◌^◌, Some, None, MatchResult};
ghost use Rattle.xcm_program.specs.Measure.{deep_count};
ghost use Rattle.xcm_program.specs.Weights.{weight_of, ref_time_of, proof_size_of};
ghost use Rattle.weight_trader.specs.Sums.{IsSum, weight_sum};

use operands::Weight;
use thiserror::Error;
use xcm_program::{Instruction, Program, WeightRule, kept, required};

/// The program has no weight: a dimension passes 2^64-1, or more instructions are counted than the rule allows.
#[derive(Clone, Copy, Debug, PartialEq, Eq, Error)]
#[error("a weight that is not computable")]
pub struct NotComputable;

/// What is summed up over the instructions of a program, those of handlers and appendices counted.
#[derive(Clone, Copy)]
struct Sums {
    /// How many they are.
    instructions: u32,
    /// In picoseconds.
    ref_time: u128,
    /// In bytes.
    proof_size: u128,
}

/// Nothing summed up.
const NOTHING: Sums = Sums {
    instructions: 0,
    ref_time: 0,
    proof_size: 0,
};

impl Sums {
    /// The sums with one more instruction, which weighs the unit, its call, and what is summed up inside it.
    fn plus(self, unit: Weight, call: Weight, inside: Sums) -> Sums
        requires few { self.instructions + 1 + inside.instructions < 2 ^ 32 }
        requires short { self.ref_time + inside.ref_time < 2 ^ 127 }
        requires small { self.proof_size + inside.proof_size < 2 ^ 127 }
        ensures instructions { result.instructions ≡ self.instructions + 1 + inside.instructions }
        ensures ref_time { result.ref_time ≡ self.ref_time + unit.ref_time + call.ref_time
            + inside.ref_time }
        ensures proof_size { result.proof_size ≡ self.proof_size + unit.proof_size + call.proof_size
            + inside.proof_size }
    {
        let ref_time = u128::from(unit.ref_time) + u128::from(call.ref_time);
        let proof_size = u128::from(unit.proof_size) + u128::from(call.proof_size);
        Sums {
            instructions: self.instructions + 1 + inside.instructions,
            ref_time: self.ref_time + inside.ref_time + ref_time,
            proof_size: self.proof_size + inside.proof_size + proof_size,
        }
    }
}

/// The sums over instructions of which each weighs one unit.
fn sum_up(program: &[Instruction], unit: Weight) -> Sums
    requires { deep_count program.now < 2 ^ 32 }
    ensures { IsSum unit program.now result.instructions result.ref_time result.proof_size }
{
    let mut sums = NOTHING;
    for instruction in program {
        let inside = match kept(instruction) {
            Some(xcm) => sum_up(xcm.items(), unit),
            None => NOTHING,
        };
        sums = sums.plus(unit, required(instruction), inside);
    }
    sums
}

/// What the program weighs by this rule. It must hold fewer than 2^32 instructions, nested ones counted.
pub fn weigh(program: &Program, rule: &WeightRule) -> Result<Weight, NotComputable>
    requires { deep_count program.now < 2 ^ 32 }
    ensures { MatchResult result
        (λ weight. weight_of rule.now program.now ≡ Some weight)
        (λ _. weight_of rule.now program.now ≡ None) }
{
    let sums = sum_up(program.items(), rule.unit);
    if sums.instructions > rule.max_instructions {
        return Err(NotComputable);
    }
    let Ok(ref_time) = u64::try_from(sums.ref_time) else {
        return Err(NotComputable);
    };
    let Ok(proof_size) = u64::try_from(sums.proof_size) else {
        return Err(NotComputable);
    };
    Ok(Weight {
        ref_time,
        proof_size,
    })
}

/// What the instructions that are left of a program weigh by this rule, in time linear in all of them. There must be fewer than 2^32,
/// nested ones counted, and their weight must be below 2^64 in each dimension.
pub fn weigh_rest(rest: &[Instruction], rule: &WeightRule) -> Weight
    requires few { deep_count rest.now < 2 ^ 32 }
    requires short { ref_time_of rule.now rest.now < 2 ^ 64 }
    requires small { proof_size_of rule.now rest.now < 2 ^ 64 }
    ensures { result ≡ weight_sum rule.now rest.now }
{
    let sums = sum_up(rest, rule.unit);
    Weight {
        ref_time: sums.ref_time as u64,
        proof_size: sums.proof_size as u64,
    }
}
