//! Messages in hexadecimal digits, and what their execution tells.
//!
//! Each function borrows a chain that has just opened.
ghost use Rattle.std.specs.Prelude.{OnOk};
ghost use Rattle.exec_rules.specs.Readiness.{IsAtRest};
ghost use Rattle.test_execution.specs.PartOf.{fake_part_of};

use crate::FakeHost;
use crate::fake_chain::{A1, A2, executed, five, holdings};
use crate::texts::report;
use asset_bundles::{Cause, Total};
use asset_lists::Kind;
use std::alloc::Global;
use std::test::Fail;
use xcm_executor::ChainRules;

/// A message that is executed on a new chain, and its trace and outcome: each instruction at least once, and runs with handlers and
/// appendices.
pub(crate) const MESSAGES: &[(&str, &str)] = &[
    (
        "04080004000000040d0100000101000202020202020202020202020202020202020202020202020202020202020202",
        "p0 0; p1 13; end +- 0 0 0 0; complete 2000 200",
    ),
    (
        "0404000400000018",
        "p0 0 FailedToTransactAsset; end +- 0 0 0 0; incomplete 1000 100 FailedToTransactAsset",
    ),
    (
        "0404010400000004",
        "p0 1 UntrustedReserveLocation; end +- 0 0 0 0; incomplete 1000 100 UntrustedReserveLocation",
    ),
    (
        "0404020400000004",
        "p0 2 UntrustedTeleportLocation; end +- 0 0 0 0; incomplete 1000 100 UntrustedTeleportLocation",
    ),
    (
        "0404031c00000000",
        "p0 3; answered 7; end +- 0 0 0 0; complete 1000 100",
    ),
    (
        "0404032000000000",
        "p0 3; ignored 8; end +- 0 0 0 0; complete 1000 100",
    ),
    (
        "0404040400000004000101000202020202020202020202020202020202020202020202020202020202020202",
        "p0 4; end +- 0 0 0 0; complete 1000 100",
    ),
    (
        "0404050400000004000100411f00",
        "p0 5 Unroutable; end +- 0 0 0 0; incomplete 1000 100 Unroutable",
    ),
    (
        "04040603a10f91010c010203",
        "p0 6 FailedToDecode; end +- 0 0 0 0; incomplete 2000 200 FailedToDecode",
    ),
    (
        "040407411f0200040020",
        "p0 7 Unimplemented; end +- 0 0 0 0; incomplete 1000 100 Unimplemented",
    ),
    (
        "040408451f",
        "p0 8 Unimplemented; end +- 0 0 0 0; incomplete 1000 100 Unimplemented",
    ),
    (
        "040409491f411f451f",
        "p0 9 Unimplemented; end +- 0 0 0 0; incomplete 1000 100 Unimplemented",
    ),
    ("04040a", "p0 10; end -- 0 0 0 0; complete 1000 100"),
    ("04040b0100411f", "p0 11; end +- 0 0 0 0; complete 1000 100"),
    (
        "04040b0707070707070707",
        "p0 11; end +- 0 0 0 0; complete 1000 100",
    ),
    (
        "04040b080707070707070707",
        "p0 11 LocationFull; end +- 0 0 0 0; incomplete 1000 100 LocationFull",
    ),
    (
        "04080a0b0107",
        "p0 10; p1 11 BadOrigin; end -- 0 0 0 0; incomplete 2000 200 BadOrigin",
    ),
    (
        "04040c000100411f1c0000",
        "p0 12 Unroutable; end +- 0 0 0 0; incomplete 1000 100 Unroutable",
    ),
    (
        "04040e0100000100411f00",
        "p0 14 Unroutable; end +- 0 0 0 0; incomplete 1000 100 Unroutable",
    ),
    (
        "04040f01000000",
        "p0 15 NoDeal; end +- 0 0 0 0; incomplete 1000 100 NoDeal",
    ),
    (
        "0404100100000100411f00",
        "p0 16 Unroutable; end +- 0 0 0 0; incomplete 1000 100 Unroutable",
    ),
    (
        "0404110100000100411f00",
        "p0 17 Unroutable; end +- 0 0 0 0; incomplete 1000 100 Unroutable",
    ),
    (
        "040412000100411f1c00000100",
        "p0 18 Unroutable; end +- 0 0 0 0; incomplete 1000 100 Unroutable",
    ),
    (
        "0404130000000400",
        "p0 19; end +- 0 0 0 0; complete 1000 100",
    ),
    (
        "04041300000004010404",
        "p0 19 NotHoldingFees; end +- 0 0 0 0; incomplete 1000 100 NotHoldingFees",
    ),
    ("040414", "p0 20; end +- 0 0 0 0; complete 1000 100"),
    (
        "04041804000000040000",
        "p0 24 UnknownClaim; end +- 0 0 0 0; incomplete 1000 100 UnknownClaim",
    ),
    (
        "04041a1ca10f9101",
        "p0 26 Unimplemented; end +- 0 0 0 0; incomplete 1000 100 Unimplemented",
    ),
    (
        "04080b01071b",
        "p0 11; p1 27 BadOrigin; end +- 0 0 0 0; incomplete 2000 200 BadOrigin",
    ),
    (
        "04041c0400000004",
        "p0 28; end +- 0 0 0 0; complete 1000 100",
    ),
    (
        "04080004000000041c0400000004",
        "p0 0; p1 28; burned; end +- 0 0 0 0; complete 2000 200",
    ),
    (
        "04041d0400000004",
        "p0 29 ExpectationFalse; end +- 0 0 0 0; incomplete 1000 100 ExpectationFalse",
    ),
    (
        "04041e01000101000101010101010101010101010101010101010101010101010101010101010101",
        "p0 30; end +- 0 0 0 0; complete 1000 100",
    ),
    (
        "04041e00",
        "p0 30 ExpectationFalse; end +- 0 0 0 0; incomplete 1000 100 ExpectationFalse",
    ),
    ("04041f00", "p0 31; end +- 0 0 0 0; complete 1000 100"),
    (
        "040815081f010100000015070000000000000017191c",
        "p0 21; p1 25 Trap(7); h0 31; h1 23; end +- 0 0 0 0; complete 4000 400",
    ),
    (
        "040815081f010000000015070000000000000017191c",
        "p0 21; p1 25 Trap(7); h0 31 ExpectationFalse; end +- 1000 100 0 0; incomplete 3000 300 ExpectationFalse",
    ),
    ("04042000", "p0 32; end +- 0 0 0 0; complete 1000 100"),
    (
        "0404200104ff",
        "p0 32 ExpectationFalse; end +- 0 0 0 0; incomplete 1000 100 ExpectationFalse",
    ),
    (
        "04042100000100411f1c0000",
        "p0 33 Unroutable; end +- 0 0 0 0; incomplete 1000 100 Unroutable",
    ),
    (
        "0404220400000000",
        "p0 34 PalletNotFound; end +- 0 0 0 0; incomplete 1000 100 PalletNotFound",
    ),
    (
        "040423000100411f1c0000",
        "p0 35 Unroutable; end +- 0 0 0 0; incomplete 1000 100 Unroutable",
    ),
    ("040424", "p0 36; end +- 0 0 0 0; complete 1000 100"),
    (
        "0404250902",
        "p0 37 InvalidLocation; end +- 0 0 0 0; incomplete 1000 100 InvalidLocation",
    ),
    (
        "04080a250902",
        "p0 10; p1 37 InvalidLocation; end -- 0 0 0 0; incomplete 2000 200 InvalidLocation",
    ),
    (
        "04080a250903",
        "p0 10; p1 37 BadOrigin; end -- 0 0 0 0; incomplete 2000 200 BadOrigin",
    ),
    (
        "040426030000",
        "p0 38 Unroutable; end +- 0 0 0 0; incomplete 1000 100 Unroutable",
    ),
    (
        "040427000000040000",
        "p0 39 LockError; end +- 0 0 0 0; incomplete 1000 100 LockError",
    ),
    (
        "040428000000040000",
        "p0 40 LockError; end +- 0 0 0 0; incomplete 1000 100 LockError",
    ),
    (
        "040429000000040000",
        "p0 41 LockError; end +- 0 0 0 0; incomplete 1000 100 LockError",
    ),
    (
        "04042a000000040000",
        "p0 42 LockError; end +- 0 0 0 0; incomplete 1000 100 LockError",
    ),
    ("04042b01", "p0 43; end +- 0 0 0 0; complete 1000 100"),
    (
        "04042c0505050505050505050505050505050505050505050505050505050505050505",
        "p0 44; end ++ 0 0 0 0; complete 1000 100",
    ),
    (
        "04082c05050505050505050505050505050505050505050505050505050505050505052d",
        "p0 44; p1 45; end +- 0 0 0 0; complete 2000 200",
    ),
    (
        "04042e0000",
        "p0 46 NoPermission; end +- 0 0 0 0; incomplete 1000 100 NoPermission",
    ),
    ("04042f0000", "p0 47; end +- 0 0 0 0; complete 1000 100"),
    (
        "04042f00010000",
        "p0 47 BadOrigin; end +- 0 0 0 0; incomplete 1000 100 BadOrigin",
    ),
    (
        "04041914",
        "p0 25 Trap(5); end +- 0 0 0 0; incomplete 1000 100 Trap(5)",
    ),
    (
        "040416041604160416041604160416040a",
        "p0 22; a0 22; a0 22; a0 22; a0 22; a0 22; a0 22; a0 10; end -- 0 0 0 0; complete 8000 800",
    ),
    (
        "041415041716040a191c2d2d",
        "p0 21; p1 22; p2 25 Trap(7); h0 23; a0 10; end -- 2000 200 0 0; complete 5000 500",
    ),
    (
        "040c15040a15042d0a",
        "p0 21; p1 21; p2 10; end -- 2000 200 0 0; complete 3000 300",
    ),
    (
        "04080004000000040a",
        "p0 0; p1 10; end -- 0 0 0 0; trapped 1; complete 2000 200",
    ),
    ("0400", "end +- 0 0 0 0; complete 0 0"),
];

/// Messages that are executed on one chain in turn: assets that no account takes are trapped, and claimed once.
const CLAIMS: [(&str, &str); 3] = [
    (
        "0408000c000000140001050400140001050800140d01020c00010409",
        "p0 0; p1 13 FailedToTransactAsset; end +- 0 0 0 0; trapped 1; incomplete 2000 200 FailedToTransactAsset",
    ),
    (
        "0408180c0000001400010504001400010508001400000d01020c000101000202020202020202020202020202020202020202020202020202020202020202",
        "p0 24; p1 13; end +- 0 0 0 0; complete 2000 200",
    ),
    (
        "0408180c0000001400010504001400010508001400000d01020c000101000202020202020202020202020202020202020202020202020202020202020202",
        "p0 24 UnknownClaim; end +- 1000 100 0 0; incomplete 1000 100 UnknownClaim",
    ),
];

/// Executes a message on the chain: the lines that it tells, and its outcome.
fn told(
    alloc: Global,
    host: &mut FakeHost,
    rules: &ChainRules,
    message: &str,
) -> Result<String, Fail>
    requires rest { IsAtRest (fake_part_of host.old) }
    ensures rests { OnOk result (IsAtRest (fake_part_of host.new)) }
{
    let before = host.events().len();
    let (outcome, _) = executed(alloc, host, rules, message)?;
    Ok(report(alloc, host.events(), before, outcome)?)
}

/// Whether the message tells just this.
pub(crate) fn is_told(
    alloc: Global,
    host: &mut FakeHost,
    rules: &ChainRules,
    message: &str,
    text: &str,
) -> Result<bool, Fail>
    requires rest { IsAtRest (fake_part_of host.old) }
    ensures rests { OnOk result (IsAtRest (fake_part_of host.new)) }
{
    let told = told(alloc, host, rules, message)?;
    Ok(told.as_str() == text)
}

/// Whether the flags of three messages are right: the first instruction is done, it is refused, and there is none.
pub(crate) fn are_flagged(
    alloc: Global,
    host: &mut FakeHost,
    rules: &ChainRules,
) -> Result<bool, Fail>
    requires rest { IsAtRest (fake_part_of host.old) }
{
    let first = executed(alloc, host, rules, "04080a1914")?.1;
    let refused = executed(alloc, host, rules, "040819140a")?.1;
    let none = executed(alloc, host, rules, "0400")?.1;
    Ok([first, refused, none] == [true, false, false])
}

/// Whether what no account takes is claimed once: what the three messages about claims tell in turn, and what accounts hold then.
pub(crate) fn are_claimed(
    alloc: Global,
    host: &mut FakeHost,
    rules: &ChainRules,
) -> Result<bool, Fail>
    requires rest { IsAtRest (fake_part_of host.old) }
{
    let first = is_told(alloc, host, rules, CLAIMS[0].0, CLAIMS[0].1)?;
    let second = is_told(alloc, host, rules, CLAIMS[1].0, CLAIMS[1].1)?;
    let third = is_told(alloc, host, rules, CLAIMS[2].0, CLAIMS[2].1)?;
    let held = holdings(host, &A1) == [0, 0, 0] && holdings(host, &A2) == [5, 5, 5];
    Ok([first, second, third, held] == [true; 4])
}

/// Whether what a program burns is booked.
pub(crate) fn are_booked(
    alloc: Global,
    host: &mut FakeHost,
    rules: &ChainRules,
) -> Result<bool, Fail>
    requires rest { IsAtRest (fake_part_of host.old) }
{
    let id = five(0).id;
    let none = Total::ZERO;
    let one = Total { high: 0, low: 1 };
    executed(alloc, host, rules, "04080004000000041c0400000004")?;
    let so = [
        host.burns().total(&id, Kind::Fungible, Cause::BurnAsset) == one,
        host.burns().total(&id, Kind::Fungible, Cause::Saturated) == none,
        holdings(host, &A1) == [4, 5, 5],
    ];
    Ok(so == [true; 3])
}
