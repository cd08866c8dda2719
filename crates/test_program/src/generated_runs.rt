//! What the generator reports.
use generator::generate;
use std::alloc::Global;
use std::process::Abort;
use std::test::Fail;

/// Asserts what is reported of each run.
fn all_are(rt: &impl Abort, alloc: Global, rows: &[(u64, u64, &str)]) -> Result<(), Fail> {
    for (number, steps, expected) in rows {
        let text = generate(alloc, *number, *steps)?;
        assert_eq!(rt; text.as_str(), *expected);
    }
    Ok(())
}

#[test]
fn a_run_without_steps_reports_the_first_world(rt: HostRuntime) -> Result<(), Fail> {
    all_are(
        &rt,
        rt.alloc(),
        &[(
            0,
            0,
            "gen 0 0
complete 0 incomplete 0 error 0 empty 0
  supply fungible /GlobalConsensus(Polkadot) home 1000000 flight 0 burned 0
  backing 2000 fungible /GlobalConsensus(Polkadot) held 0 owed 0
  backing 2001 fungible /GlobalConsensus(Polkadot) held 0 owed 0
",
        )],
    )
}

#[test]
fn steps_are_drawn_run_and_counted(rt: HostRuntime) -> Result<(), Fail> {
    all_are(
        &rt,
        rt.alloc(),
        &[
            (
                1,
                20,
                "gen 1 20
complete 7 incomplete 5 error 0 empty 8
  supply fungible /GlobalConsensus(Polkadot) home 1000000 flight 0 burned 0
  backing 2000 fungible /GlobalConsensus(Polkadot) held 848 owed 848
  backing 2001 fungible /GlobalConsensus(Polkadot) held 2092 owed 2092
",
            ),
            (
                1,
                100,
                "gen 1 100
complete 53 incomplete 27 error 0 empty 20
  supply fungible /GlobalConsensus(Polkadot) home 1000000 flight 0 burned 0
  backing 2000 fungible /GlobalConsensus(Polkadot) held 198 owed 198
  backing 2001 fungible /GlobalConsensus(Polkadot) held 4376 owed 4376
",
            ),
            (
                7,
                300,
                "gen 7 300
complete 239 incomplete 25 error 0 empty 36
  supply fungible /GlobalConsensus(Polkadot) home 1000000 flight 0 burned 0
  backing 2000 fungible /GlobalConsensus(Polkadot) held 6982 owed 6982
  backing 2001 fungible /GlobalConsensus(Polkadot) held 5717 owed 5717
",
            ),
            (
                18_446_744_073_709_551_615,
                50,
                "gen 18446744073709551615 50
complete 28 incomplete 6 error 0 empty 16
  supply fungible /GlobalConsensus(Polkadot) home 1000000 flight 0 burned 0
  backing 2000 fungible /GlobalConsensus(Polkadot) held 2434 owed 2434
  backing 2001 fungible /GlobalConsensus(Polkadot) held 3769 owed 3769
",
            ),
        ],
    )
}

/// After so many steps the account of the relay chain has nothing left to send.
#[test]
fn many_steps_keep_the_supply(rt: HostRuntime) -> Result<(), Fail> {
    all_are(
        &rt,
        rt.alloc(),
        &[(
            1,
            10_000,
            "gen 1 10000
complete 7548 incomplete 1445 error 0 empty 1007
  supply fungible /GlobalConsensus(Polkadot) home 1000000 flight 0 burned 0
  backing 2000 fungible /GlobalConsensus(Polkadot) held 14933 owed 14933
  backing 2001 fungible /GlobalConsensus(Polkadot) held 9255 owed 9255
",
        )],
    )
}
