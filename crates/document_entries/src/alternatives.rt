//! Two fields of which there has to be just one.
ghost use Rattle.std.specs.Prelude.{Result, IfOk};
ghost use Rattle.document_entries.specs.declared.fault.NetworkFault.{NetworkFault};
ghost use Rattle.document_entries.specs.Answers.{Answers};
ghost use Rattle.document_entries.specs.Entries.{both_fault};
ghost use Rattle.document_entries.specs.Alternatives.{IsFaultOf, AreCausesOf};

use crate::{NetworkFault, Place, Stop};
use std::alloc::AllocError;

/// Which of the causes that come first a field is refused for.
#[derive(Clone, Copy)]
struct Causes {
    /// A value of another JSON type.
    wrong_kind: bool,
    /// More than a limit allows.
    limit_passed: bool,
}

/// The causes for which a field is refused.
fn causes_of<X: Drop>(read: Result<X, Stop>) -> Result<Causes, AllocError>
    ensures { IfOk result (λ causes. (given : Result X NetworkFault) → Answers read given
        → AreCausesOf causes given) }
{
    match read {
        Ok(_) => Ok(Causes {
            wrong_kind: false,
            limit_passed: false,
        }),
        Err(Stop::Fault(fault)) => Ok(Causes {
            wrong_kind: matches!(fault, NetworkFault::WrongKind(_)),
            limit_passed: matches!(fault, NetworkFault::LimitPassed(_)),
        }),
        Err(Stop::Memory) => Err(AllocError),
    }
}

/// The fault of two fields that are both there: the first of their causes in the order of kinds.
pub(crate) fn both_there<X: Drop, Y: Drop>(
    place: Place,
    one: Result<X, Stop>,
    other: Result<Y, Stop>,
) -> Stop
    ensures { (x : Result X NetworkFault) (y : Result Y NetworkFault)
        → Answers one x → Answers other y → IsFaultOf result (both_fault place x y) }
{
    let Ok(first) = causes_of(one) else {
        return Stop::Memory;
    };
    let Ok(second) = causes_of(other) else {
        return Stop::Memory;
    };
    if first.wrong_kind || second.wrong_kind {
        return Stop::Fault(NetworkFault::WrongKind(place));
    }
    if first.limit_passed || second.limit_passed {
        return Stop::Fault(NetworkFault::LimitPassed(place));
    }
    Stop::Fault(NetworkFault::BadValue(place))
}
