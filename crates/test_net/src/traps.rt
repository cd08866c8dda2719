//! What is left of a run is trapped, and claimed.
use crate::documents::{COHERENT, RESERVE};
use crate::stepping::check;
use std::test::Fail;

/// A relay chain with three assets, of each of which an account has 5.
const THREE: &str = r#"{"chains":[
{"assets":[{"id":"0","native":[]},{"id":"0/GeneralIndex(1)","native":[]},{"id":"0/GeneralIndex(2)","native":[]}],
 "accounts":[{"who":"A1","asset":"0","amount":"5"},
  {"who":"A1","asset":"0/GeneralIndex(1)","amount":"5"},
  {"who":"A1","asset":"0/GeneralIndex(2)","amount":"5"}]}]}"#;

/// A location without account takes nothing, what was to go there is trapped, and is claimed once.
const CLAIMED: &[(&str, &str)] = &[
    (
        "exec relay A1 0408000c000000140001050400140001050800140d01020c00010409",
        "  p0 WithdrawAsset ok
  p1 DepositAsset FailedToTransactAsset
  end origin 0/AccountId32(A1) topic - surplus 0 0 refunded 0 0
  trapped 1
  = incomplete 2000 200 FailedToTransactAsset
",
    ),
    ("balances", ""),
    (
        "traps",
        "  trap relay 1 0/AccountId32(A1): 0 5, 0/GeneralIndex(1) 5, 0/GeneralIndex(2) 5
",
    ),
    (
        "exec relay A1 0408180c0000001400010504001400010508001400000d01020c00010100B2",
        "  p0 ClaimAsset ok
  p1 DepositAsset ok
  end origin 0/AccountId32(A1) topic - surplus 0 0 refunded 0 0
  = complete 2000 200
",
    ),
    (
        "balances",
        "  balance relay A2 0 5
  balance relay A2 0/GeneralIndex(1) 5
  balance relay A2 0/GeneralIndex(2) 5
",
    ),
    ("traps", ""),
    (
        "exec relay A1 0408180c0000001400010504001400010508001400000d01020c00010100B2",
        "  p0 ClaimAsset UnknownClaim
  end origin 0/AccountId32(A1) topic - surplus 1000 100 refunded 0 0
  = incomplete 1000 100 UnknownClaim
",
    ),
];

#[test]
fn what_no_account_takes_is_trapped_and_claimed(rt: HostRuntime) -> Result<(), Fail> {
    check(&rt, rt.alloc(), THREE, COHERENT, CLAIMED)
}

/// A relay chain with 21 assets, of each of which an account has 1, and a channel to a parachain.
const MANY: &str = r#"{"chains":[
{"assets":[{"id":"0/GeneralIndex(0)","native":[]},
 {"id":"0/GeneralIndex(1)","native":[]},
 {"id":"0/GeneralIndex(2)","native":[]},
 {"id":"0/GeneralIndex(3)","native":[]},
 {"id":"0/GeneralIndex(4)","native":[]},
 {"id":"0/GeneralIndex(5)","native":[]},
 {"id":"0/GeneralIndex(6)","native":[]},
 {"id":"0/GeneralIndex(7)","native":[]},
 {"id":"0/GeneralIndex(8)","native":[]},
 {"id":"0/GeneralIndex(9)","native":[]},
 {"id":"0/GeneralIndex(10)","native":[]},
 {"id":"0/GeneralIndex(11)","native":[]},
 {"id":"0/GeneralIndex(12)","native":[]},
 {"id":"0/GeneralIndex(13)","native":[]},
 {"id":"0/GeneralIndex(14)","native":[]},
 {"id":"0/GeneralIndex(15)","native":[]},
 {"id":"0/GeneralIndex(16)","native":[]},
 {"id":"0/GeneralIndex(17)","native":[]},
 {"id":"0/GeneralIndex(18)","native":[]},
 {"id":"0/GeneralIndex(19)","native":[]},
 {"id":"0/GeneralIndex(20)","native":[]}],
 "accounts":[{"who":"A1","asset":"0/GeneralIndex(0)","amount":"1"},
 {"who":"A1","asset":"0/GeneralIndex(1)","amount":"1"},
 {"who":"A1","asset":"0/GeneralIndex(2)","amount":"1"},
 {"who":"A1","asset":"0/GeneralIndex(3)","amount":"1"},
 {"who":"A1","asset":"0/GeneralIndex(4)","amount":"1"},
 {"who":"A1","asset":"0/GeneralIndex(5)","amount":"1"},
 {"who":"A1","asset":"0/GeneralIndex(6)","amount":"1"},
 {"who":"A1","asset":"0/GeneralIndex(7)","amount":"1"},
 {"who":"A1","asset":"0/GeneralIndex(8)","amount":"1"},
 {"who":"A1","asset":"0/GeneralIndex(9)","amount":"1"},
 {"who":"A1","asset":"0/GeneralIndex(10)","amount":"1"},
 {"who":"A1","asset":"0/GeneralIndex(11)","amount":"1"},
 {"who":"A1","asset":"0/GeneralIndex(12)","amount":"1"},
 {"who":"A1","asset":"0/GeneralIndex(13)","amount":"1"},
 {"who":"A1","asset":"0/GeneralIndex(14)","amount":"1"},
 {"who":"A1","asset":"0/GeneralIndex(15)","amount":"1"},
 {"who":"A1","asset":"0/GeneralIndex(16)","amount":"1"},
 {"who":"A1","asset":"0/GeneralIndex(17)","amount":"1"},
 {"who":"A1","asset":"0/GeneralIndex(18)","amount":"1"},
 {"who":"A1","asset":"0/GeneralIndex(19)","amount":"1"},
 {"who":"A1","asset":"0/GeneralIndex(20)","amount":"1"}]},
{"para":2000}],
"channels":[{"from":"relay","to":2000}]}"#;

/// A message carries at most 20 assets, and so does a trap.
const PIECES: &[(&str, &str)] = &[
    (
        "exec relay A1 040c00500001050000040001050400040001050800040001050c00040001051000040001051400040001051800040001051c00040001052000040001052400040001052800040001052c00040001053000040001053400040001053800040001053c00040001054000040001054400040001054800040001054c000400040001055000040e0100000100411f00",
        "  p0 WithdrawAsset ok
  p1 WithdrawAsset ok
  p2 DepositReserveAsset ExceedsMaxMessageSize
  end origin 0/AccountId32(A1) topic - surplus 0 0 refunded 0 0
  trapped 1
  trapped 2
  = incomplete 3000 300 ExceedsMaxMessageSize
",
    ),
    ("balances", ""),
    ("queues", ""),
    (
        "traps",
        "  trap relay 1 0/AccountId32(A1): 0/GeneralIndex(0) 1, 0/GeneralIndex(1) 1, 0/GeneralIndex(2) 1, 0/GeneralIndex(3) 1, 0/GeneralIndex(4) 1, 0/GeneralIndex(5) 1, 0/GeneralIndex(6) 1, 0/GeneralIndex(7) 1, 0/GeneralIndex(8) 1, 0/GeneralIndex(9) 1, 0/GeneralIndex(10) 1, 0/GeneralIndex(11) 1, 0/GeneralIndex(12) 1, 0/GeneralIndex(13) 1, 0/GeneralIndex(14) 1, 0/GeneralIndex(15) 1, 0/GeneralIndex(16) 1, 0/GeneralIndex(17) 1, 0/GeneralIndex(18) 1, 0/GeneralIndex(19) 1
  trap relay 2 0/AccountId32(A1): 0/GeneralIndex(20) 1
",
    ),
];

#[test]
fn a_message_carries_at_most_20_assets(rt: HostRuntime) -> Result<(), Fail> {
    check(&rt, rt.alloc(), MANY, COHERENT, PIECES)
}

/// A chain sends a claim in its own name, which pays nothing and isn't let in.
const CLAIMS: &[(&str, &str)] = &[
    ("claim 2000 relay 04041914", "  = not a claim\n"),
    ("claim 2000 relay 0408180000000a", "  = sent 1\n"),
    (
        "queues",
        "  queue 2000 relay 1 0x0408180000000a
",
    ),
    (
        "deliver 2000 relay",
        "  message 2000 relay 1
  = incomplete 2000 200 Barrier
",
    ),
];

#[test]
fn a_chain_sends_claims_alone(rt: HostRuntime) -> Result<(), Fail> {
    check(&rt, rt.alloc(), RESERVE, COHERENT, CLAIMS)
}

/// What a chain's message left is claimed by that chain, and pays for the claim.
const LEFT: &[(&str, &str)] = &[
    (
        "exec relay A1 04040504000000a10f000100411f0413010000910100",
        "  p0 TransferReserveAsset ok
  sent relay 2000 1
  end origin 0/AccountId32(A1) topic - surplus 0 0 refunded 0 0
  = complete 1000 100
",
    ),
    (
        "deliver relay 2000",
        "  message relay 2000 1
  p0 ReserveAssetDeposited ok
  p1 ClearOrigin ok
  p2 BuyExecution ok
  end origin - topic - surplus 0 0 refunded 0 0
  trapped 1
  = complete 3000 300
",
    ),
    ("traps", "  trap 2000 1 1: 1 997\n"),
    (
        "claim relay 2000 04101804010000950f00000a130100009101000d01020400010100B2",
        "  = sent 2\n",
    ),
    (
        "deliver relay 2000",
        "  message relay 2000 2
  p0 ClaimAsset ok
  p1 ClearOrigin ok
  p2 BuyExecution ok
  p3 DepositAsset ok
  end origin - topic - surplus 0 0 refunded 0 0
  = complete 4000 400
",
    ),
    (
        "balances",
        "  balance relay A1 0 999000
  balance relay PARA 0 1000
  balance 2000 A0 1 7
  balance 2000 A2 1 993
",
    ),
];

#[test]
fn a_chain_claims_what_its_message_left(rt: HostRuntime) -> Result<(), Fail> {
    check(&rt, rt.alloc(), RESERVE, COHERENT, LEFT)
}
