//! Calls as bytes, both ways.

use crate::call_values::{B2, batch, transfer};
use call_dispatch::{
    Call, CallFault, call_units, law_of_dispatches, law_of_interruptions, law_of_moving_back,
    law_of_spelled_calls, read_call, write_call,
};
use plain_lists::BoundedVec;
use scale_codec::Out;
use std::alloc::Global;
use std::test::Fail;

/// Whether the hex is what is written for the call, and is read as it.
fn spells(alloc: Global, call: &Call, hex: &str) -> Result<bool, Fail> {
    let bytes = hex::decode(alloc, hex)?;
    let mut out = Out::new(alloc);
    write_call(&mut out, call)?;
    let read = read_call(alloc, bytes.as_slice())?;
    Ok(out.bytes() == bytes.as_slice() && read == *call)
}

/// A transfer of 5 of row 0 to the receiver.
const TRANSFER: &str = "0100020202020202020202020202020202020202020202020202020202020202020214";

/// That, and then a call that fails with the code 9.
const BOTH: &str = "030801000202020202020202020202020202020202020202020202020202020202020202140209";

#[test]
fn calls_both_ways(rt: HostRuntime) -> Result<(), Fail> {
    let alloc = rt.alloc();
    let remark = Call::Remark(BoundedVec::from_vec(vec![in alloc; 7, 9]?));
    assert!(rt; spells(alloc, &remark, "00080709")?);
    assert!(rt; spells(alloc, &transfer(0, B2, 5), TRANSFER)?);
    assert!(rt; spells(alloc, &Call::Fail(9), "0209")?);
    let both = batch(vec![in alloc; transfer(0, B2, 5), Call::Fail(9)]?);
    assert!(rt; spells(alloc, &both, BOTH)?);
    assert!(rt; call_units(&both) == 3);
    assert!(rt; call_units(&remark) == 1);
    Ok(())
}

/// No calls: nothing, an unknown index, bytes left over, too few, a longer compact number, an amount of 0, a batch without items, and a
/// batch in a batch.
const NO_CALLS: &[&str] = &[
    "",
    "04",
    "020900",
    "02",
    "000100",
    "0004",
    "0304",
    "03040300",
    "0300ff",
    "0100020202020202020202020202020202020202020202020202020202020202020200",
    "010002020202020202020202020202020202020202020202020202020202020202021500",
];

#[test]
fn other_bytes_are_no_calls(rt: HostRuntime) -> Result<(), Fail> {
    for hex in NO_CALLS {
        let bytes = hex::decode(rt.alloc(), *hex)?;
        assert!(rt;
            read_call(rt.alloc(), bytes.as_slice()) == Err(CallFault::NotACall),
            "{hex}"
        );
    }
    Ok(())
}

/// The first bytes, and after them a byte so many times.
fn filled(alloc: Global, front: &[u8], count: usize, byte: u8) -> Result<Vec<u8>, Fail> {
    let mut bytes = Vec::new(alloc);
    bytes.extend_from_slice(front)?;
    for _ in 0..count {
        bytes.push(byte)?;
    }
    Ok(bytes)
}

#[test]
fn limits(rt: HostRuntime) -> Result<(), Fail> {
    let alloc = rt.alloc();
    let full = filled(alloc, &[0x00, 0x01, 0x10], 1024, 7)?;
    assert!(rt; read_call(alloc, full.as_slice()).is_ok());
    let past = filled(alloc, &[0x00, 0x05, 0x10], 1025, 7)?;
    assert!(rt; read_call(alloc, past.as_slice()) == Err(CallFault::NotACall));
    let eight = filled(alloc, &[0x03, 0x20], 16, 2)?;
    assert!(rt; read_call(alloc, eight.as_slice()).is_ok());
    let nine = filled(alloc, &[0x03, 0x24], 18, 2)?;
    assert!(rt; read_call(alloc, nine.as_slice()) == Err(CallFault::NotACall));
    law_of_spelled_calls();
    law_of_dispatches();
    law_of_interruptions();
    law_of_moving_back();
    Ok(())
}
