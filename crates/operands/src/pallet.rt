//! The pallets of a chain, as queries tell of them.
ghost use Rattle.std.specs.Prelude.{◌≡◌, IfOk};

use crate::BoundedVec;
use std::alloc::AllocError;

/// The name of a pallet or of its module, at most 48 bytes.
pub type PalletName = BoundedVec<u8, 48>;

/// A pallet of a chain (XCM format: `PalletInfo`).
#[derive(Debug, Drop, PartialEq, Eq)]
pub struct PalletInfo {
    /// Its index in the chain's runtime.
    pub index: u32,
    /// Its name in the runtime.
    pub name: PalletName,
    /// The name of the module that it is an instance of.
    pub module_name: PalletName,
    /// The first number of the crate's version.
    pub major: u32,
    /// The second number of the crate's version.
    pub minor: u32,
    /// The third number of the crate's version.
    pub patch: u32,
}

impl PalletInfo {
    /// The same value.
    pub fn copy(&self) -> Result<PalletInfo, AllocError>
        ensures { IfOk result (λ info. info ≡ self.now) }
    {
        Ok(PalletInfo {
            index: self.index,
            name: self.name.copy()?,
            module_name: self.module_name.copy()?,
            major: self.major,
            minor: self.minor,
            patch: self.patch,
        })
    }
}

/// The pallets of a chain that a response tells of, at most 64.
pub type PalletInfos = BoundedVec<PalletInfo, 64>;
