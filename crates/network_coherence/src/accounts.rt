//! The accounts that chains have at one another.
ghost use Rattle.std.specs.Prelude.{◌≡◌};
ghost use Rattle.trust_tables.specs.Accounts as accounts;

use chain_ids::ChainId;

/// A label, a number from its lowest byte on, and zeros.
fn labelled_account(label: [u8; 4], number: u32) -> [u8; 32]
    ensures { result ≡ accounts.labelled label number }
{
    let [a, b, c, d] = label;
    let [e, f, g, h] = number.to_le_bytes();
    [
        a, b, c, d, e, f, g, h, 0, 0, 0, 0, 0, 0, 0, 0, 0, 0, 0, 0, 0, 0, 0, 0, 0, 0, 0, 0, 0, 0,
        0, 0,
    ]
}

/// The account that the second chain has at the first, of 32 bytes. It takes no memory.
pub fn sovereign_account(here: ChainId, chain: ChainId) -> [u8; 32]
    ensures { result ≡ accounts.sovereign_account here chain }
{
    match (here, chain) {
        (_, ChainId::Relay) => *b"Parent\0\0\0\0\0\0\0\0\0\0\0\0\0\0\0\0\0\0\0\0\0\0\0\0\0\0",
        (ChainId::Relay, ChainId::Para(number)) => labelled_account(*b"para", number),
        (ChainId::Para(_), ChainId::Para(number)) => labelled_account(*b"sibl", number),
    }
}
