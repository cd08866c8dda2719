//! Which assets an instruction means.
use crate::{AssetId, Assets};
use plain_lists::Boxed;

/// Which assets of an id a wildcard means.
#[derive(Clone, Copy, Debug, PartialEq, Eq, PartialOrd, Ord)]
pub enum WildFun {
    /// The amounts.
    Fungible,
    /// The instances.
    NonFungible,
}

/// Assets that aren't listed one by one.
#[derive(Debug, Drop, PartialEq, Eq)]
pub enum Wild {
    /// All of them.
    All,
    /// All of this id and kind.
    AllOf {
        /// What the assets are called.
        id: Boxed<AssetId>,
        /// Amounts or instances.
        fun: WildFun,
    },
    /// The first of all, at most this many.
    AllCounted(u32),
    /// The first of this id and kind, at most this many.
    AllOfCounted {
        /// What the assets are called.
        id: Boxed<AssetId>,
        /// Amounts or instances.
        fun: WildFun,
        /// How many at most.
        count: u32,
    },
}

/// Assets that an instruction takes from what is held.
#[derive(Debug, Drop, PartialEq, Eq)]
pub enum Filter {
    /// Just these.
    Definite(Assets),
    /// What the wildcard means.
    Wild(Wild),
}
