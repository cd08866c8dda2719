//! The laws of the spellings: none is a proper prefix of another of its type. And of the readers: each takes what is spelled so,
//! whatever follows it, and nothing else.

ghost use Rattle.std.specs.Prelude.{◌≡◌, ℕ, List};
ghost use Rattle.locations.specs.declared.relative.Location.{Location};
ghost use Rattle.scale_codec.specs.Spelling.{HasOneSpelling, IsPrefixFree};
ghost use Rattle.scale_codec.specs.Reading.{Reads};
ghost use Rattle.location_wire.specs.Spelling.{network, FitsNetwork, junction, FitsJunction, junctions, FitsJunctions, location, FitsLocation};
ghost use Rattle.location_wire.specs.Reading.{network_at, junction_at, junctions_at, location_at};
ghost use Rattle.location_wire.specs.Texts.{IsTextOf};

/// A network, a junction, a list of junctions and a location have at most one spelling, by definition: a spelling is a function of
/// its value.
pub fn law_of_one_spelling()
    ensures network { HasOneSpelling network FitsNetwork }
    ensures junction { HasOneSpelling junction FitsJunction }
    ensures junctions { HasOneSpelling junctions FitsJunctions }
    ensures location { HasOneSpelling location FitsLocation }
{}

/// No spelling of a network, a junction, a list of junctions or a location is a proper prefix of another of its type.
pub fn law_of_no_prefix()
    ensures network { IsPrefixFree network FitsNetwork }
    ensures junction { IsPrefixFree junction FitsJunction }
    ensures junctions { IsPrefixFree junctions FitsJunctions }
    ensures location { IsPrefixFree location FitsLocation }
{}

/// The readers take the spellings, whatever follows them, and nothing else.
pub fn law_of_readers()
    ensures network { Reads network FitsNetwork network_at }
    ensures junction { Reads junction FitsJunction junction_at }
    ensures junctions { Reads junctions FitsJunctions junctions_at }
    ensures location { Reads location FitsLocation location_at }
{}

/// A text is that of one location at most.
pub fn law_of_one_location()
    ensures { (text : List ℕ) (l m : Location) → IsTextOf l text → IsTextOf m text → l ≡ m }
{}
