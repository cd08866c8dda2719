//! The read of an instance alone.

ghost use Rattle.std.specs.Prelude.{◌≡◌};
ghost use Rattle.scale_codec.specs.Answers.{Gives, IsRead};
ghost use Rattle.asset_wire.specs.Spelling.{instance, FitsInstance};
ghost use Rattle.asset_wire.specs.Reading.{instance_at};

use crate::parts::take_instance;
use asset_lists::Instance;
use scale_codec::{Cursor, NoSpelling};

/// The instance at the front of what is left, which both versions spell alike. `NoSpelling` comes exactly where no prefix spells
/// one; the cursor is then where it was.
#[tactic(auto, using(scale_codec::proofs::Lemmas::ReadLaws::is_read, crate::proofs::Lemmas::FieldLaws::instance_reads))]
pub fn read_instance(c: &mut Cursor<'_>) -> Result<Instance, NoSpelling>
    ensures read { Gives result (instance_at c.old) c.old c.new }
    ensures spelling { IsRead instance FitsInstance result c.old c.new }
{
    let start = c.rest();
    let read = take_instance(c);
    c.settle(start, read)
}
