//! Admission: weight, limit, barriers.
ghost use Rattle.std.specs.Prelude.{◌≡◌, ◌<◌, ◌^◌, IfOk};
ghost use Rattle.xcm_program.specs.Measure.{deep_count};
ghost use Rattle.exec_rules.specs.Admission.{admitted, IsWeighed};

use crate::rules::ChainRules;
use barriers::allow;
use locations::Location;
use operands::{OpenQuery, Weight};
use weight_trader::weigh;
use xcm_program::{Outcome, OutcomeError, Program};

/// A program that is to be run.
#[derive(Drop)]
pub struct Admitted {
    /// The program, in which a purchase that the paid barrier names buys just the weight.
    pub program: Program,
    /// What it weighs.
    pub weight: Weight,
}

/// Admits a program of fewer than 2^32 instructions, nested ones counted, or tells its outcome. It takes no memory.
pub fn admit(
    rules: &ChainRules,
    origin: &Location,
    mut program: Program,
    credit: Weight,
    queries: &[OpenQuery],
) -> Result<Admitted, Outcome>
    requires few { deep_count program < 2 ^ 32 }
    ensures answer { result ≡ admitted rules.now origin.now credit queries.now program }
    ensures weighed { IfOk result (IsWeighed rules.now.weight) }
{
    let Ok(weight) = weigh(&program, &rules.weight) else {
        let error = OutcomeError::WeightNotComputable;
        return Err(Outcome::Error { error });
    };
    if !weight.is_within(rules.limit) {
        let error = OutcomeError::WeightLimitReached;
        return Err(Outcome::Error { error });
    }
    if !allow(
        rules.barriers.items(),
        origin,
        &mut program,
        weight,
        credit,
        queries,
    ) {
        return Err(Outcome::Incomplete {
            used: weight,
            error: OutcomeError::Barrier,
        });
    }
    Ok(Admitted { program, weight })
}
