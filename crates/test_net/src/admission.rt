//! Which programs run, and what their weight costs.
use crate::documents::{COHERENT, RESERVE};
use crate::stepping::check;
use std::test::Fail;

/// A relay chain where time is expensive, and each instruction takes one and a half times what costs 1.
const DEAR: &str = r#"{"chains":[
{"unit_weight":[1500000000000,0],"max_weight":[10000000000000,0],
 "assets":[{"id":"0","native":[]}],
 "rates":[{"asset":"0","per_second":"1","per_mb":"0"}],
 "accounts":[{"who":"A1","asset":"0","amount":"10"}]}]}"#;

/// Two purchases cost 1 each, and 2 come back, though what is given back is worth 3.
const REFUNDED: &[(&str, &str)] = &[
    (
        "exec relay A1 04180004000000081300000004010b0098f73e5d01001300000004010b0098f73e5d010019000a0a",
        "  p0 WithdrawAsset ok
  p1 BuyExecution ok
  p2 BuyExecution ok
  p3 Trap Trap(0)
  end origin 0/AccountId32(A1) topic - surplus 3000000000000 0 refunded 3000000000000 0
  trapped 1
  = incomplete 6000000000000 0 Trap(0)
",
    ),
    ("traps", "  trap relay 1 0/AccountId32(A1): 0 2\n"),
    ("balances", "  balance relay A1 0 8\n"),
    (
        "supply",
        "  supply fungible /GlobalConsensus(Polkadot) home 10 flight 0 burned 0
",
    ),
];

#[test]
fn no_more_is_refunded_than_was_paid(rt: HostRuntime) -> Result<(), Fail> {
    check(&rt, rt.alloc(), DEAR, COHERENT, REFUNDED)
}

/// What was paid for weight that isn't used comes back within the run.
const GIVEN_BACK: &[(&str, &str)] = &[
    (
        "exec relay A1 04240004000000910113000000910101419c001508140d010000010100B319000a0a0a0a0a",
        "  p0 WithdrawAsset ok
  p1 BuyExecution ok
  p2 SetErrorHandler ok
  p3 Trap Trap(0)
  h0 RefundSurplus ok
  h1 DepositAsset ok
  end origin 0/AccountId32(A1) topic - surplus 5000 500 refunded 5000 500
  = incomplete 6000 600 Trap(0)
",
    ),
    (
        "balances",
        "  balance relay A0 0 5
  balance relay A1 0 999900
  balance relay A3 0 95
",
    ),
];

#[test]
fn what_is_not_used_is_given_back_when_asked_for(rt: HostRuntime) -> Result<(), Fail> {
    check(&rt, rt.alloc(), RESERVE, COHERENT, GIVEN_BACK)
}

/// A relay chain where two instructions weigh more than can be computed.
const HEAVY: &str = r#"{"chains":[
{"unit_weight":[9223372036854775808,0],"max_weight":[18446744073709551615,0]}]}"#;

/// A relay chain with a limit of two instructions.
const LIMITED: &str = r#"{"chains":[{"max_weight":[2000,200]}]}"#;

/// One instruction has a weight, two haven't.
const WEIGHED: &[(&str, &str)] = &[
    (
        "exec relay A1 04040a",
        "  p0 ClearOrigin ok
  end origin - topic - surplus 0 0 refunded 0 0
  = complete 9223372036854775808 0
",
    ),
    ("exec relay A1 04080a0a", "  = error WeightNotComputable\n"),
];

/// Two instructions are within the limit, three aren't.
const LIMITS: &[(&str, &str)] = &[
    (
        "exec relay A1 04080a0a",
        "  p0 ClearOrigin ok
  p1 ClearOrigin ok
  end origin - topic - surplus 0 0 refunded 0 0
  = complete 2000 200
",
    ),
    ("exec relay A1 040c0a0a0a", "  = error WeightLimitReached\n"),
];

#[test]
fn a_program_has_a_weight_within_the_limit(rt: HostRuntime) -> Result<(), Fail> {
    check(&rt, rt.alloc(), HEAVY, COHERENT, WEIGHED)?;
    check(&rt, rt.alloc(), LIMITED, COHERENT, LIMITS)
}

/// A parachain with 1000 of an asset of the relay chain, and channels both ways.
const BACKED: &str = r#"{"chains":[
{"assets":[{"id":"0","native":[]}],
 "rates":[{"asset":"0","per_second":"1000000000","per_mb":"0"}],
 "accounts":[{"who":"PARA","asset":"0","amount":"1000"}]},
{"para":2000,"assets":[{"id":"1","reserve":"relay"}],
 "accounts":[{"who":"A2","asset":"1","amount":"1000"}]}],
"channels":[{"from":"relay","to":2000},{"from":2000,"to":"relay"}]}"#;

/// A message that pays for more than it weighs is let in and pays for its weight; one that pays for less isn't let in, and what it was to
/// withdraw stays at the reserve.
const PAID: &[(&str, &str)] = &[
    (
        "exec 2000 A2 04080004010000410610010001000813000000910101214ed1070d01020400010100B3",
        "  p0 WithdrawAsset ok
  p1 InitiateReserveWithdraw ok
  sent 2000 relay 1
  end origin 0/AccountId32(A2) topic - surplus 0 0 refunded 0 0
  = complete 2000 200
",
    ),
    (
        "deliver 2000 relay",
        "  message 2000 relay 1
  p0 WithdrawAsset ok
  p1 ClearOrigin ok
  p2 BuyExecution ok
  p3 DepositAsset ok
  end origin - topic - surplus 0 0 refunded 0 0
  = complete 4000 400
",
    ),
    (
        "exec 2000 A2 040800040100004106100100010008130000009101017d3e41060d01020400010100B3",
        "  p0 WithdrawAsset ok
  p1 InitiateReserveWithdraw ok
  sent 2000 relay 2
  end origin 0/AccountId32(A2) topic - surplus 0 0 refunded 0 0
  = complete 2000 200
",
    ),
    (
        "deliver 2000 relay",
        "  message 2000 relay 2
  = incomplete 4000 400 Barrier
",
    ),
    (
        "balances",
        "  balance relay A0 0 4
  balance relay A3 0 396
  balance relay PARA 0 600
  balance 2000 A2 1 200
",
    ),
    (
        "supply",
        "  supply fungible /GlobalConsensus(Polkadot) home 1000 flight 0 burned 0
  backing 2000 fungible /GlobalConsensus(Polkadot) held 600 owed 200
",
    ),
];

#[test]
fn a_message_pays_for_its_weight(rt: HostRuntime) -> Result<(), Fail> {
    check(&rt, rt.alloc(), BACKED, COHERENT, PAID)
}

/// A relay chain that lets in one account, which has to say that it doesn't pay.
const EXPLICIT: &str = r#"{"chains":[{"barriers":[{"explicit":["0/AccountId32(A1)"]}]}]}"#;

/// Who says so and is listed is let in.
const UNPAID: &[(&str, &str)] = &[
    (
        "exec relay A1 04042f0000",
        "  p0 UnpaidExecution ok
  end origin 0/AccountId32(A1) topic - surplus 0 0 refunded 0 0
  = complete 1000 100
",
    ),
    ("exec relay A1 04040a", "  = incomplete 1000 100 Barrier\n"),
    (
        "exec relay A2 04042f0000",
        "  = incomplete 1000 100 Barrier\n",
    ),
];

#[test]
fn an_account_may_say_that_it_does_not_pay(rt: HostRuntime) -> Result<(), Fail> {
    check(&rt, rt.alloc(), EXPLICIT, COHERENT, UNPAID)
}
