//! Devices that fail: each of the first twenty reads, and each of the first twenty writes, of a transfer and back.

ghost use Rattle.std.specs.Prelude.{◌<◌};

use crate::documents::THREE_CHAINS;
use crate::running::{Program, RUN, ran_of};
use std::alloc::Global;
use std::test::Fail;
use xcm_cli::Status;

/// The lines after the network document, and the pieces of what is written for each.
const LINES: &[(&str, &[&str])] = &[
    (
        "\n---\n",
        &[
            "coherent
  supply fungible /GlobalConsensus(Polkadot) home 1000000 flight 0 burned 0
  backing 2000 fungible /GlobalConsensus(Polkadot) held 0 owed 0
  backing 2001 fungible /GlobalConsensus(Polkadot) held 0 owed 0
",
        ],
    ),
    (
        "exec relay 0x0101010101010101010101010101010101010101010101010101010101010101 04040504000000a10f000100411f08130100009101000d010204000101000202020202020202020202020202020202020202020202020202020202020202\n",
        &[
            "#1 exec relay
  p0 TransferReserveAsset ok
  sent relay 2000 1
  end origin 0/AccountId32(0x0101010101010101010101010101010101010101010101010101010101010101) topic - surplus 0 0 refunded 0 0
  = complete 1000 100
",
        ],
    ),
    (
        "balances\n",
        &[
            "#2 balances\n",
            "  balance relay 0x0101010101010101010101010101010101010101010101010101010101010101 0 999000
  balance relay 0x70617261d0070000000000000000000000000000000000000000000000000000 0 1000
",
        ],
    ),
    (
        "deliver relay 2000\n",
        &[
            "#3 deliver relay 2000
  message relay 2000 1
  p0 ReserveAssetDeposited ok
  p1 ClearOrigin ok
  p2 BuyExecution ok
  p3 DepositAsset ok
  end origin - topic - surplus 0 0 refunded 0 0
  = complete 4000 400
",
        ],
    ),
    (
        "balances\n",
        &[
            "#4 balances\n",
            "  balance relay 0x0101010101010101010101010101010101010101010101010101010101010101 0 999000
  balance relay 0x70617261d0070000000000000000000000000000000000000000000000000000 0 1000
",
            "  balance 2000 0x0000000000000000000000000000000000000000000000000000000000000000 1 4
  balance 2000 0x0202020202020202020202020202020202020202020202020202020202020202 1 996
",
        ],
    ),
    (
        "exec 2000 0x0202020202020202020202020202020202020202020202020202020202020202 04080004010000d107100100010008130000009101000d010204000101000303030303030303030303030303030303030303030303030303030303030303\n",
        &[
            "#5 exec 2000
  p0 WithdrawAsset ok
  p1 InitiateReserveWithdraw ok
  sent 2000 relay 1
  end origin 0/AccountId32(0x0202020202020202020202020202020202020202020202020202020202020202) topic - surplus 0 0 refunded 0 0
  = complete 2000 200
",
        ],
    ),
    (
        "deliver 2000 relay\n",
        &[
            "#6 deliver 2000 relay
  message 2000 relay 1
  p0 WithdrawAsset ok
  p1 ClearOrigin ok
  p2 BuyExecution ok
  p3 DepositAsset ok
  end origin - topic - surplus 0 0 refunded 0 0
  = complete 4000 400
",
        ],
    ),
    (
        "supply\n",
        &[
            "#7 supply
  supply fungible /GlobalConsensus(Polkadot) home 1000000 flight 0 burned 0
  backing 2000 fungible /GlobalConsensus(Polkadot) held 500 owed 500
  backing 2001 fungible /GlobalConsensus(Polkadot) held 0 owed 0
",
        ],
    ),
    (
        "balances\n",
        &[
            "#8 balances\n",
            "  balance relay 0x0000000000000000000000000000000000000000000000000000000000000000 0 4
  balance relay 0x0101010101010101010101010101010101010101010101010101010101010101 0 999000
  balance relay 0x0303030303030303030303030303030303030303030303030303030303030303 0 496
  balance relay 0x70617261d0070000000000000000000000000000000000000000000000000000 0 500
",
            "  balance 2000 0x0000000000000000000000000000000000000000000000000000000000000000 1 4
  balance 2000 0x0202020202020202020202020202020202020202020202020202020202020202 1 496
",
        ],
    ),
];

/// The whole input.
fn whole_input(alloc: Global) -> Result<String, Fail> {
    let mut input = String::from_str(alloc, THREE_CHAINS)?;
    for (line, _) in LINES {
        input.push_str(line)?;
    }
    Ok(input)
}

/// What is written of the lines that end within the first bytes, so many.
fn report_of(alloc: Global, taken: usize) -> Result<String, Fail> {
    let mut report = String::new(alloc);
    let mut end = THREE_CHAINS.len();
    for (line, pieces) in LINES {
        end = end.saturating_add(line.len());
        if end <= taken {
            push_all(&mut report, pieces)?;
        }
    }
    Ok(report)
}

/// Pushes all pieces onto the report.
fn push_all(report: &mut String, pieces: &[&str]) -> Result<(), Fail> {
    for text in pieces {
        report.push_str(text)?;
    }
    Ok(())
}

/// How many calls it takes to move so many bytes by pieces of at most so many.
fn calls_for(bytes: usize, piece: usize) -> usize
    requires { 0 < piece }
{
    bytes.div_ceil(piece)
}

/// Whether a source that fails at this read leaves the reports of the lines before.
fn source_fails(alloc: Global, input: &str, failing: usize, piece: usize) -> Result<bool, Fail>
    requires { 0 < piece }
{
    // one more, which finds the end of the input
    let calls = calls_for(input.len(), piece).saturating_add(1);
    let status = if failing <= calls {
        Status::ReadFault
    } else {
        Status::Done
    };
    let report = report_of(alloc, failing.saturating_sub(1).saturating_mul(piece))?;
    let ran = ran_of(
        Program::Rudderrusset,
        alloc,
        RUN,
        input.as_bytes(),
        piece,
        &[failing as u64],
        &[],
    )?;
    Ok(ran.has(status, report.as_bytes()))
}

/// Where each text that is written at once ends in the report, where a read gives at most so many bytes: each piece of a reply in pieces,
/// and the other replies to the lines that end within one read, together.
fn ends_of_texts(alloc: Global, piece: usize) -> Result<Vec<usize>, Fail>
    requires { 0 < piece }
{
    let mut ends: Vec<usize> = Vec::new(alloc);
    let mut end = THREE_CHAINS.len();
    let mut told: usize = 0;
    let mut gathered_in: usize = 0;
    for (line, pieces) in LINES {
        end = end.saturating_add(line.len());
        let read = calls_for(end, piece);
        let is_gathered = pieces.len() == 1;
        if is_gathered && gathered_in == read {
            let _ = ends.pop();
        }
        told = push_ends(&mut ends, told, pieces)?;
        gathered_in = if is_gathered { read } else { 0 };
    }
    Ok(ends)
}

/// Pushes where each piece ends after so many bytes, and tells where the last does.
fn push_ends(ends: &mut Vec<usize>, told: usize, pieces: &[&str]) -> Result<usize, Fail> {
    let mut end = told;
    for text in pieces {
        end = end.saturating_add(text.len());
        ends.push(end)?;
    }
    Ok(end)
}

/// The answer and what is written where a write fails and each takes at most so many bytes.
fn front_of(
    alloc: Global,
    input: &str,
    failing: usize,
    piece: usize,
) -> Result<(Status, Vec<u8>), Fail>
    requires { 0 < piece }
{
    let report = report_of(alloc, input.len())?;
    let ends = ends_of_texts(alloc, piece)?;
    let mut calls: usize = 0;
    let mut told: usize = 0;
    for end in ends.iter() {
        let end = *end;
        let before = calls;
        calls = calls.saturating_add(calls_for(end.saturating_sub(told), piece));
        if failing <= calls {
            let count = failing.saturating_sub(before).saturating_sub(1);
            let kept = told.saturating_add(count.saturating_mul(piece));
            let front = &report.as_bytes()[..kept.min(report.len())];
            return Ok((Status::WriteFault, front.to_vec(alloc)?));
        }
        told = end;
    }
    Ok((Status::Done, report.as_bytes().to_vec(alloc)?))
}

/// Whether a sink that fails at this write leaves what was written before.
fn sink_fails(alloc: Global, input: &str, failing: usize, piece: usize) -> Result<bool, Fail>
    requires { 0 < piece }
{
    let (status, front) = front_of(alloc, input, failing, piece)?;
    let ran = ran_of(
        Program::Rudderrusset,
        alloc,
        RUN,
        input.as_bytes(),
        piece,
        &[],
        &[failing as u64],
    )?;
    Ok(ran.has(status, front.as_slice()))
}

#[test]
fn what_fails_leaves_what_was_told_before(rt: HostRuntime) -> Result<(), Fail> {
    let alloc = rt.alloc();
    let input = whole_input(alloc)?;
    for failing in 1usize..21 {
        assert!(&rt;
            source_fails(alloc, &input, failing, 64)?,
            "at read {failing}"
        );
        assert!(&rt;
            source_fails(alloc, &input, failing, 65_536)?,
            "at read {failing}"
        );
        assert!(&rt;
            sink_fails(alloc, &input, failing, 64)?,
            "at write {failing}"
        );
        assert!(&rt;
            sink_fails(alloc, &input, failing, 65_536)?,
            "at write {failing}"
        );
    }
    Ok(())
}
