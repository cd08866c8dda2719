//! What moves assets in and out of a chain's accounts.
ghost use Rattle.std.specs.Prelude.{◌≡◌};
ghost use Rattle.chain_state.specs.Transacting.{error_of, fault_of};

use asset_locks::LockBook;
use exec_base::{HostFault, Settings};
use operands::XcmError;
use transactors::{FirstThat, Floored, Fungibles, Instances, MoveFault};

/// What moves a chain's assets: amounts first, then instances, and each account keeps what is locked on it.
pub(crate) type Transactors<'a> = Floored<'a, FirstThat<Fungibles<'a>, Instances<'a>>>;

/// What moves the assets of a chain with these settings and locks.
pub(crate) fn transactors_of<'a>(settings: &'a Settings, locks: &'a LockBook) -> Transactors<'a>
    ensures first_rows { result.inner.first.rows.now ≡ settings.now.rows }
    ensures second_rows { result.inner.second.rows.now ≡ settings.now.rows }
    ensures first_site { result.inner.first.site.now ≡ settings.now.site }
    ensures second_site { result.inner.second.site.now ≡ settings.now.site }
    ensures locks { result.locks.now ≡ locks.now }
{
    let rows = settings.rows.items();
    let site = &settings.site;
    Floored {
        inner: FirstThat {
            first: Fungibles { rows, site },
            second: Instances { rows, site },
        },
        locks,
    }
}

/// The error that a refused move is. No rule refuses for memory.
pub(crate) fn error_of(fault: MoveFault) -> XcmError
    ensures { result ≡ error_of fault }
{
    match fault {
        MoveFault::NotHandled => XcmError::AssetNotFound,
        MoveFault::NoAccount | MoveFault::Refused | MoveFault::Memory => {
            XcmError::FailedToTransactAsset
        }
    }
}

/// The fault of a host that a refused move is.
pub(crate) fn fault_of(fault: MoveFault) -> HostFault
    ensures { result ≡ fault_of fault }
{
    match fault {
        MoveFault::NotHandled => HostFault::Xcm(XcmError::AssetNotFound),
        MoveFault::NoAccount | MoveFault::Refused => {
            HostFault::Xcm(XcmError::FailedToTransactAsset)
        }
        MoveFault::Memory => HostFault::Memory,
    }
}
