//! The barriers of a chain, and which of them lets a program in.
ghost use Rattle.std.specs.Prelude.{◌≡◌, true, false, if◌then◌else◌, IfOk};
ghost use Rattle.barriers.specs.Barriers as barriers;
ghost use Rattle.barriers.specs.Barriers.{admission, allows, holds_at, left_by};

use crate::paid::{fits, purchase, set_limit};
use locations::Location;
use operands::{OpenQuery, Weight};
use plain_lists::Listed;
use std::alloc::{AllocError, Global};
use xcm_program::{Instruction, Program};

/// Origins of which a barrier speaks, as seen from the chain. Contracts see them as their list.
pub type Origins = Listed<Location>;

/// A rule by which a chain lets a program in (xcm-executor's and xcm-builder's documentation of barriers).
#[derive(Debug, Drop, PartialEq, Eq)]
pub enum Barrier {
    /// Allows where the credit is at least the weight, in both dimensions.
    Credit,
    /// Allows where the program brings at most two assets and then, after ClearOrigins alone and at index 4 at most, buys at least
    /// its weight. What it buys is then set to the weight.
    Paid,
    /// Allows these origins where the program asks for unpaid execution of at least its weight.
    Explicit(Origins),
    /// Allows these origins.
    Unpaid(Origins),
    /// Allows a single response to an open query, from the location that may answer it. Its querier plays no part.
    Responses,
}

/// A list of the same origins.
fn copied(alloc: Global, origins: &[Location]) -> Result<Origins, AllocError>
    ensures { IfOk result (λ copies. copies ≡ origins.now) }
{
    let mut copies = Vec::with_capacity(alloc, origins.len())?;
    for origin in origins {
        copies.push(origin.copy())?;
    }
    Ok(Listed::from_vec(copies))
}

impl Barrier {
    /// The same barrier. An `Err` is out of memory.
    pub fn copy(&self, alloc: Global) -> Result<Barrier, AllocError>
        ensures { IfOk result (λ barrier. barrier ≡ self.now) }
    {
        match self {
            Barrier::Credit => Ok(Barrier::Credit),
            Barrier::Paid => Ok(Barrier::Paid),
            Barrier::Explicit(origins) => Ok(Barrier::Explicit(copied(alloc, origins.items())?)),
            Barrier::Unpaid(origins) => Ok(Barrier::Unpaid(copied(alloc, origins.items())?)),
            Barrier::Responses => Ok(Barrier::Responses),
        }
    }
}

/// Whether a chain's barriers let a program in, by the first of them that allows. Where that is the paid one, the limit of the
/// program's purchase becomes the weight; all else stays. `weight` is the program's, `credit` what was paid for otherwise. It takes
/// no memory.
pub fn allow(
    list: &[Barrier],
    origin: &Location,
    program: &mut Program,
    weight: Weight,
    credit: Weight,
    queries: &[OpenQuery],
) -> bool
    ensures { (result, program.new) ≡ admission origin.now weight credit queries.now list.now
        program.old }
{
    for barrier in list {
        if admits(barrier, origin, program, weight, credit, queries) {
            return true;
        }
    }
    false
}

/// Whether a barrier allows; a paid one that does sets the limit.
fn admits(
    barrier: &Barrier,
    origin: &Location,
    program: &mut Program,
    weight: Weight,
    credit: Weight,
    queries: &[OpenQuery],
) -> bool
    ensures answer { result ≡ allows origin.now weight credit queries.now program.old barrier.now }
    ensures left { program.new ≡ (if result then left_by weight program.old barrier.now
        else program.old) }
{
    match barrier {
        Barrier::Credit => weight.is_within(credit),
        Barrier::Paid => pays(program, weight),
        Barrier::Explicit(origins) => {
            is_listed(origins.items(), origin) && asks_unpaid(program.items(), weight)
        }
        Barrier::Unpaid(origins) => is_listed(origins.items(), origin),
        Barrier::Responses => is_response(program.items(), origin, queries),
    }
}

/// Whether the paid barrier allows; where it does, the limit is set.
fn pays(program: &mut Program, weight: Weight) -> bool
    ensures answer { result ≡ barriers.is_paid_execution weight program.old }
    ensures left { program.new ≡ (if result then barriers.with_exact_purchase weight program.old
        else program.old) }
{
    match purchase(program.items(), weight) {
        None => false,
        Some(index) => {
            set_limit(program, index, weight);
            true
        }
    }
}

/// Whether the origin is one of these.
fn is_listed(origins: &[Location], origin: &Location) -> bool
    ensures { result ≡ barriers.is_listed_origin origins.now origin.now }
{
    origins.iter().any(|listed| listed == origin)
}

/// Whether the program begins by asking for unpaid execution of at least this weight.
fn asks_unpaid(program: &[Instruction], weight: Weight) -> bool
    ensures { result ≡ holds_at (barriers.asks_unpaid weight) program.now 0 }
{
    match program.first() {
        Some(Instruction::UnpaidExecution { limit, .. }) => fits(weight, *limit),
        _ => false,
    }
}

/// Whether the program is one response to a query that is open for this origin.
fn is_response(program: &[Instruction], origin: &Location, queries: &[OpenQuery]) -> bool
    ensures { result ≡ barriers.is_response queries.now origin.now program.now }
{
    match program {
        [Instruction::QueryResponse { query_id, .. }] => is_open(*query_id, origin, queries),
        _ => false,
    }
}

/// Whether the query of this number is open for this origin.
fn is_open(id: u64, origin: &Location, queries: &[OpenQuery]) -> bool
    ensures { result ≡ barriers.is_open id origin.now queries.now }
{
    queries
        .iter()
        .any(|query| query.id == id && query.from == *origin)
}
