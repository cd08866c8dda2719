//! Reads of locations and their parts.

ghost use Rattle.std.specs.Prelude.{◌≡◌};
ghost use Rattle.scale_codec.specs.Answers.{Gives, IsRead};
ghost use Rattle.location_wire.specs.Spelling.{network, FitsNetwork, junction, FitsJunction, junctions, FitsJunctions, location, FitsLocation};
ghost use Rattle.location_wire.specs.Reading.{network_at, junction_at, junctions_at, location_at};

use crate::parts::{take_junction, take_junctions, take_location, take_network};
use locations::{Junction, Junctions, Location, NetworkId};
use scale_codec::{Cursor, NoSpelling};

/// The network at the front of what is left. `NoSpelling` comes exactly where no prefix spells one; the cursor is then where it
/// was.
#[tactic(auto, using(scale_codec::proofs::Lemmas::ReadLaws::is_read, crate::proofs::Lemmas::FieldLaws::network_reads))]
pub fn read_network_id(c: &mut Cursor<'_>) -> Result<NetworkId, NoSpelling>
    ensures read { Gives result (network_at c.old) c.old c.new }
    ensures spelling { IsRead network FitsNetwork result c.old c.new }
{
    let start = c.rest();
    let read = take_network(c);
    c.settle(start, read)
}

/// The junction at the front of what is left. `NoSpelling` comes exactly where no prefix spells one; the cursor is then where it
/// was.
#[tactic(auto, using(scale_codec::proofs::Lemmas::ReadLaws::is_read, crate::proofs::Lemmas::FieldLaws::junction_reads))]
pub fn read_junction(c: &mut Cursor<'_>) -> Result<Junction, NoSpelling>
    ensures read { Gives result (junction_at c.old) c.old c.new }
    ensures spelling { IsRead junction FitsJunction result c.old c.new }
{
    let start = c.rest();
    let read = take_junction(c);
    c.settle(start, read)
}

/// The junctions at the front of what is left, at most eight after their number. `NoSpelling` comes exactly where no prefix
/// spells such a list; the cursor is then where it was.
#[tactic(auto, using(scale_codec::proofs::Lemmas::ReadLaws::is_read, crate::proofs::Lemmas::FieldLaws::junctions_reads))]
pub fn read_junctions(c: &mut Cursor<'_>) -> Result<Junctions, NoSpelling>
    ensures read { Gives result (junctions_at c.old) c.old c.new }
    ensures spelling { IsRead junctions FitsJunctions result c.old c.new }
{
    let start = c.rest();
    let read = take_junctions(c);
    c.settle(start, read)
}

/// The location at the front of what is left. `NoSpelling` comes exactly where no prefix spells one; the cursor is then where it
/// was.
#[tactic(auto, using(scale_codec::proofs::Lemmas::ReadLaws::is_read, crate::proofs::Lemmas::FieldLaws::location_reads))]
pub fn read_location(c: &mut Cursor<'_>) -> Result<Location, NoSpelling>
    ensures read { Gives result (location_at c.old) c.old c.new }
    ensures spelling { IsRead location FitsLocation result c.old c.new }
{
    let start = c.rest();
    let read = take_location(c);
    c.settle(start, read)
}
