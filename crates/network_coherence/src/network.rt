//! Whether a network is coherent.
ghost use Rattle.std.specs.Prelude.{◌≡◌, None, Some, OnOk, IfErr};
ghost use Rattle.std.specs.Option.{option_or};
ghost use Rattle.law_coherence.specs.Causes.{first_cause, table_cause};
ghost use Rattle.network_steps.specs.Genesis.{entries_of};
ghost use Rattle.network_coherence.specs.Answers.{finding_of, incoherent_of, tables_in};

use crate::Incoherent;
use crate::holdings::{checking_short, instance_twice, not_backed};
use crate::listings::{id_not_normal, partner_unlisted, path_twice, reserve_unlisted};
use network_spec::NetworkSpec;

/// The first cause that the chains' lists alone show.
fn listing_cause(spec: &NetworkSpec) -> Option<Incoherent>
    ensures { finding_of result ≡ table_cause (tables_in spec.now) }
{
    path_twice(spec)
        .or_else(|| id_not_normal(spec))
        .or_else(|| partner_unlisted(spec))
        .or_else(|| reserve_unlisted(spec))
}

/// The first cause of all.
fn first_cause(spec: &NetworkSpec) -> Option<Incoherent>
    ensures { finding_of result ≡ first_cause (entries_of spec.now) }
{
    listing_cause(spec)
        .or_else(|| instance_twice(spec))
        .or_else(|| not_backed(spec))
        .or_else(|| checking_short(spec))
}

/// Whether a network is coherent when it opens: that two rows of a chain have different paths, that ids are the shortest names of their
/// locations, that partners and reserves list the asset so, that no instance has an owner at two homes, that derivatives are covered at
/// their reserves, and that no checking account is below what other homes hold. An `Err` is the first cause that says otherwise, in this
/// order, each over chains in order, their rows in listed order and a row's partners in listed order. It takes no memory.
pub fn coherent(spec: &NetworkSpec) -> Result<(), Incoherent>
    ensures coherent { OnOk result (first_cause (entries_of spec.now) ≡ None) }
    ensures first { IfErr result (λ found. first_cause (entries_of spec.now)
        ≡ Some (incoherent_of found)) }
{
    match first_cause(spec) {
        None => Ok(()),
        Some(found) => Err(found),
    }
}
