//! Why a call of a host is refused.
use operands::XcmError;
use std::alloc::AllocError;

/// Why a call of a host is refused.
#[derive(Clone, Copy, Debug, PartialEq, Eq)]
pub enum HostFault {
    /// By the rule of the instruction that it serves.
    Xcm(XcmError),
    /// Out of memory.
    Memory,
}

impl From<AllocError> for HostFault {
    ghost use Rattle.std.specs.Prelude.{◌≡◌};
    ghost use Rattle.exec_base.specs.declared.faults.HostFault.TheVariants.{Memory};

    ghost from_gives = { λ _ fault. fault ≡ Memory };

    fn from(_: AllocError) -> HostFault {
        HostFault::Memory
    }
}
