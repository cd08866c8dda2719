//! Courses of calls, each on a chain of its own, and the chains as they open.
ghost use Rattle.std.specs.Prelude.{◌≡◌, []};
ghost use Rattle.amounts.specs.Amounts.{empty};
ghost use Rattle.channel_parts.specs.declared.cargo.Cargo.{Cargo};
ghost use Rattle.chain_state.specs.PartOf.{part_of};

use crate::chains::{A1, PARA, all_chains, held, relay};
use crate::host_rows::{arrivals, burns, ends_cargo, fees, parking, traps};
use crate::sending_rows::{derivatives, leaving, routes, waiting};
use chain_state::ChainState;
use exec_base::{Host, HostFault};
use std::alloc::Global;
use std::test::Fail;
use trust_tables::ChainId;

/// What the calls of a course show.
#[derive(Clone, Copy)]
enum Course {
    Traps,
    Arrivals,
    EndedCargo,
    CargoLeft,
    Burns,
    Fees,
    Parking,
    Leaving,
    Derivatives,
    Routes,
    Waiting,
}

/// The courses, and their names.
const COURSES: &[(Course, &str)] = &[
    (
        Course::Traps,
        "what no account takes is trapped and claimed",
    ),
    (
        Course::Arrivals,
        "assets arrive from chains that are trusted",
    ),
    (Course::EndedCargo, "the list ends a cargo"),
    (Course::CargoLeft, "another list leaves it"),
    (Course::Burns, "burns are booked"),
    (Course::Fees, "weight and fees are paid and settled"),
    (Course::Parking, "what is parked stands aside"),
    (Course::Leaving, "assets leave for chains that are trusted"),
    (Course::Derivatives, "a derivative leaves for its reserve"),
    (Course::Routes, "what has no route keeps its goods"),
    (Course::Waiting, "messages wait with what they carry"),
];

/// Whether the calls of the course answer as they should on a chain that has just opened.
fn goes(chain: &mut ChainState, alloc: Global, course: Course) -> Result<bool, HostFault>
    requires slot { (part_of chain.old).fee_slot ≡ empty }
    requires cargo { (part_of chain.old).cargo.cargo ≡ Cargo.Nothing }
    requires parked { (part_of chain.old).parked ≡ [] }
{
    match course {
        Course::Traps => traps(chain, alloc),
        Course::Arrivals => Ok(arrivals(chain, alloc)),
        Course::EndedCargo => ends_cargo(chain, alloc, 5),
        Course::CargoLeft => Ok(!ends_cargo(chain, alloc, 4)?),
        Course::Burns => burns(chain, alloc),
        Course::Fees => fees(chain, alloc),
        Course::Parking => parking(chain, alloc),
        Course::Leaving => leaving(chain, alloc),
        Course::Derivatives => derivatives(chain, alloc),
        Course::Routes => routes(chain, alloc),
        Course::Waiting => waiting(chain, alloc),
    }
}

/// Whether the course goes as it should on a new chain. Here alone a chain ends, which is expensive to prove.
fn is_right(alloc: Global, course: Course) -> Result<bool, Fail> {
    let mut chain = relay(alloc)?;
    Ok(goes(&mut chain, alloc, course) == Ok(true))
}

#[test]
fn calls_answer_as_worked_out(rt: HostRuntime) -> Result<(), Fail> {
    for (course, name) in COURSES {
        assert!(rt; is_right(rt.alloc(), *course)?, "{name}");
    }
    Ok(())
}

/// Whether a chain is that one, with so many rows, so much of its own asset at the first account and on its checking account, and
/// nothing else.
fn is_opened(
    chain: &ChainState,
    name: ChainId,
    rows: usize,
    coins: u128,
    checking: Option<u128>,
) -> bool {
    chain.site().chain == name
        && chain.rows().len() == rows
        && held(chain, &A1) == coins
        && chain.checking(0) == checking
        && chain.parked().is_empty()
        && chain.pallets().is_empty()
}

/// Whether these are the relay chain and the parachain as the document says.
fn are_opened(chains: &[ChainState]) -> bool {
    match chains {
        [relay, para] => is_opened(relay, ChainId::Relay, 3, 100, Some(10))
            && is_opened(para, PARA, 1, 0, None),
        _ => false,
    }
}

#[test]
fn a_chain_opens_as_its_document_says(rt: HostRuntime) -> Result<(), Fail> {
    let chains = all_chains(rt.alloc())?;
    let so = are_opened(chains.as_slice());
    drop(chains);
    assert!(rt; so);
    Ok(())
}
