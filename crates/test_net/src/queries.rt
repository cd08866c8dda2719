//! Queries and their answers, and drains.
use crate::documents::COHERENT;
use crate::stepping::{check, opened, stepped};
use chain_ids::ChainId;
use chain_net::Net;
use std::test::Fail;

/// A relay chain that has asked parachain 2000 something, and two parachains; channels both ways.
const ASKING: &str = r#"{"chains":[
{"assets":[{"id":"0","native":[]}],
 "rates":[{"asset":"0","per_second":"1000000000","per_mb":"0"}],
 "accounts":[{"who":"A1","asset":"0","amount":"1000000"}],
 "queries":[{"id":7,"from":2000}]},
{"para":2000,"assets":[{"id":"1","reserve":"relay"}],
 "rates":[{"asset":"1","per_second":"1000000000","per_mb":"0"}]},
{"para":2001,"assets":[{"id":"1","reserve":"relay"}],
 "rates":[{"asset":"1","per_second":"1000000000","per_mb":"0"}]}],
"channels":[{"from":"relay","to":2000},{"from":2000,"to":"relay"},
{"from":"relay","to":2001},{"from":2001,"to":"relay"}]}"#;

/// The status is reported, which answers the query; the same report once more isn't let in.
const ANSWERED: &[(&str, &str)] = &[
    (
        "exec 2000 A2 04042301001c0000",
        "  p0 ReportTransactStatus ok
  sent 2000 relay 1
  end origin 0/AccountId32(A2) topic - surplus 0 0 refunded 0 0
  = complete 1000 100
",
    ),
    (
        "queues",
        "  queue 2000 relay 1 0x0404031c0500000001000200411f0100B2
",
    ),
    (
        "deliver 2000 relay",
        "  message 2000 relay 1
  p0 QueryResponse ok
  answered 7
  end origin 0/Parachain(2000) topic - surplus 0 0 refunded 0 0
  = complete 1000 100
",
    ),
    (
        "exec 2000 A2 04042301001c0000",
        "  p0 ReportTransactStatus ok
  sent 2000 relay 2
  end origin 0/AccountId32(A2) topic - surplus 0 0 refunded 0 0
  = complete 1000 100
",
    ),
    (
        "deliver 2000 relay",
        "  message 2000 relay 2
  = incomplete 1000 100 Barrier
",
    ),
];

#[test]
fn a_report_answers_an_open_query_once(rt: HostRuntime) -> Result<(), Fail> {
    check(&rt, rt.alloc(), ASKING, COHERENT, ANSWERED)
}

/// Delivers until no message waits.
fn drained(net: &mut Net) -> Result<u64, Fail> {
    if net.stopped() {
        return Err(Fail::new("the network is stopped"));
    }
    Ok(net.drain()?)
}

#[test]
fn a_drain_delivers_what_waits(rt: HostRuntime) -> Result<(), Fail> {
    let alloc = rt.alloc();
    let mut net = opened(alloc, ASKING)?;
    assert!(rt; net.next_channel().is_none());
    for _ in 0..2 {
        stepped(alloc, &mut net, "exec 2000 A2 04042301001c0000")?;
    }
    assert!(rt; net.next_channel() == Some((ChainId::Para(2000), ChainId::Relay)));
    assert!(rt; drained(&mut net)? == 2);
    assert!(rt; net.next_channel().is_none());
    assert!(rt; drained(&mut net)? == 0);
    Ok(())
}

/// A relay chain that has asked parachain 2000 three things; the parachain has an asset of the relay chain, and two pallets.
const KNOWING: &str = r#"{"chains":[
{"assets":[{"id":"0","native":[]}],
 "accounts":[{"who":"PARA","asset":"0","amount":"1000"}],
 "queries":[{"id":7,"from":2000},{"id":8,"from":2000},{"id":9,"from":2000}]},
{"para":2000,"assets":[{"id":"1","reserve":"relay"}],
 "accounts":[{"who":"A2","asset":"1","amount":"1000"}],
 "pallets":[
{"index":50,"name":"Balances","module_name":"pallet_balances","major":4,"minor":1,"patch":2},
{"index":51,"name":"Assets","module_name":"pallet_assets","major":1,"minor":0,"patch":0}]}],
"channels":[{"from":2000,"to":"relay"}]}"#;

/// An error, what is held and a pallet are reported.
const REPORTED: &[(&str, &str)] = &[
    (
        "exec 2000 A2 040815040c01001c00001914",
        "  p0 SetErrorHandler ok
  p1 Trap Trap(5)
  h0 ReportError ok
  sent 2000 relay 1
  end origin 0/AccountId32(A2) topic - surplus 0 0 refunded 0 0
  = incomplete 3000 300 Trap(5)
",
    ),
    (
        "exec 2000 A2 040c0004010000d10712010020000001000d010000010100B3",
        "  p0 WithdrawAsset ok
  p1 ReportHolding ok
  sent 2000 relay 2
  p2 DepositAsset ok
  end origin 0/AccountId32(A2) topic - surplus 0 0 refunded 0 0
  = complete 3000 300
",
    ),
    (
        "exec 2000 A2 0404213c70616c6c65745f62616c616e6365730100240000",
        "  p0 QueryPallet ok
  sent 2000 relay 3
  end origin 0/AccountId32(A2) topic - surplus 0 0 refunded 0 0
  = complete 1000 100
",
    ),
    (
        "queues",
        "  queue 2000 relay 1 0x0404031c020101000000150500000000000000000001000200411f0100B2
  queue 2000 relay 2 0x040403200104000000d107000001000200411f0100B2
  queue 2000 relay 3 0x040403240404c82042616c616e6365733c70616c6c65745f62616c616e636573100408000001000200411f0100B2
",
    ),
    ("drain", "  drained 3\n"),
];

#[test]
fn reports_say_what_is_there(rt: HostRuntime) -> Result<(), Fail> {
    check(&rt, rt.alloc(), KNOWING, COHERENT, REPORTED)
}
