//! The accounts that locations have on a chain.
ghost use Rattle.std.specs.Prelude.{◌≡◌, ◌↔◌, IsTrue};
ghost use Rattle.trust_tables.specs.Accounts as accounts;
ghost use Rattle.trust_tables.specs.Accounts.{IsSovereign, is_of_network, labelled};

use crate::{ChainId, Site};
use locations::{Junction, Location, NetworkId};

/// The account that a location has on a chain, of 32 bytes: that of a whole chain by its label and number, or the
/// account that the location itself names. Other locations have none. It takes no memory.
pub fn account_of(l: &Location, site: &Site) -> Option<[u8; 32]>
    ensures { result ≡ accounts.account_of l.now site.now }
{
    match (l.parents, l.interior.items()) {
        (0, [Junction::AccountId32 { network, id }]) if is_of(network, site) => Some(*id),
        (0, [Junction::Parachain(number)]) if site.chain == ChainId::Relay => Some(child_account(
            *number,
        )),
        (1, [Junction::Parachain(number)]) if site.chain != ChainId::Relay => Some(sibling_account(
            *number,
        )),
        (1, []) if site.chain != ChainId::Relay => Some(parent_account()),
        _ => None,
    }
}

/// Whether an account is that of a whole chain, on whatever chain it is. It takes no memory.
pub fn is_sovereign(account: &[u8; 32]) -> bool
    ensures { IsTrue result ↔ IsSovereign account.now }
{
    let number = u32::from_le_bytes([account[4], account[5], account[6], account[7]]);
    *account == child_account(number)
        || *account == sibling_account(number)
        || *account == parent_account()
}

/// Whether an account that may name a network is one of the site's network.
fn is_of(named: &Option<NetworkId>, site: &Site) -> bool
    ensures { result ≡ is_of_network site.now.network named.now }
{
    match named {
        None => true,
        Some(network) => is_same(network, &site.network),
    }
}

/// Whether two names are of one network.
fn is_same(a: &NetworkId, b: &NetworkId) -> bool
    ensures { IsTrue result ↔ (a.now ≡ b.now) }
{
    a == b
}

/// The account of a parachain on the relay chain.
fn child_account(number: u32) -> [u8; 32]
    ensures { result ≡ accounts.child_account number }
{
    labelled_account(*b"para", number)
}

/// The account of a parachain on another parachain.
fn sibling_account(number: u32) -> [u8; 32]
    ensures { result ≡ accounts.sibling_account number }
{
    labelled_account(*b"sibl", number)
}

/// The account of the relay chain on a parachain.
fn parent_account() -> [u8; 32]
    ensures { result ≡ accounts.parent_account }
{
    *b"Parent\0\0\0\0\0\0\0\0\0\0\0\0\0\0\0\0\0\0\0\0\0\0\0\0\0\0"
}

/// A label, a number from its lowest byte on, and zeros.
fn labelled_account(label: [u8; 4], number: u32) -> [u8; 32]
    ensures { result ≡ labelled label number }
{
    let [a, b, c, d] = label;
    let [e, f, g, h] = number.to_le_bytes();
    [
        a, b, c, d, e, f, g, h, 0, 0, 0, 0, 0, 0, 0, 0, 0, 0, 0, 0, 0, 0, 0, 0, 0, 0, 0, 0, 0, 0,
        0, 0,
    ]
}
