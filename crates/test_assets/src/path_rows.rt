//! Locations: paths, reanchoring, their order.
use locations::{
    BodyId, BodyPart, Full, Junction, Junctions, Location, LocationFault, NetworkId, PathFault,
    are_apart, invert_target, law_of_derived_order, law_of_exact_location_orders, law_of_paths,
};
use std::alloc::{AllocError, Global};
use std::cmp::Ordering;
use std::test::Fail;

const POLKADOT: Junction = Junction::GlobalConsensus(NetworkId::Polkadot);

const PARA_2: Junction = Junction::Parachain(2);

const PARA_2000: Junction = Junction::Parachain(2000);

const PALLET: Junction = Junction::PalletInstance(50);

const INDEX: Junction = Junction::GeneralIndex(1984);

/// Parents and junctions.
type Place = (u8, &'static [Junction]);

fn chain(items: &[Junction]) -> Result<Junctions, Full> {
    let mut chain = Junctions::empty();
    for junction in items {
        chain.push(*junction)?;
    }
    Ok(chain)
}

pub(crate) fn place(parents: u8, items: &[Junction]) -> Result<Location, Full> {
    let interior = chain(items)?;
    Ok(Location { parents, interior })
}

/// Whether there are at most eight junctions.
fn has_few() -> Result<bool, Full> {
    let four = chain(&[PALLET; 4])?;
    let mut many = four.copy();
    let is_same = many == four;
    many.append(&four)?;
    Ok(
        is_same
            && many.items().len() == 8
            && many.push(POLKADOT) == Err(Full)
            && many.append(&four) == Err(Full)
            && many.append(&Junctions::empty()) == Ok(())
            && many == Junctions::from_few(&[PALLET; 8]),
    )
}

/// Whether each element of the list is borrowed for writing, and none after it.
fn lends_its_places() -> Result<bool, Full> {
    let mut two = chain(&[POLKADOT, PALLET])?;
    let places = two.places();
    if places.len() != 2 {
        return Ok(false);
    }
    places[1] = INDEX;
    Ok(two.items() == [POLKADOT, INDEX].as_slice())
}

/// Whether the way back from a target, seen from a chain right under the root, is of the junctions above.
fn leads_back() -> Result<bool, Full> {
    let context = chain(&[POLKADOT])?;
    let back = place(0, &[Junction::OnlyChild, Junction::OnlyChild, POLKADOT])?;
    let near = invert_target(&context, &place(3, &[])?);
    let far = invert_target(&context, &place(9, &[])?);
    Ok(near == Ok(back) && far == Err(Full))
}

/// What a prefix before the location makes of it.
fn prefixed(location: Location, prefix: &Location) -> Result<Location, LocationFault> {
    let mut found = location;
    found.prepend_with(prefix)?;
    Ok(found)
}

/// Locations, prefixes, and what they make of them: they are cancelled or added.
const PREFIXED: &[(Place, Place, Result<Place, LocationFault>)] = &[
    (
        (1, &[INDEX]),
        (2, &[POLKADOT, PARA_2]),
        Ok((2, &[POLKADOT, INDEX])),
    ),
    ((255, &[]), (1, &[]), Err(LocationFault::TooHigh)),
    (
        (0, &[Junction::OnlyChild; 8]),
        (0, &[POLKADOT]),
        Err(LocationFault::Full),
    ),
];

/// Whether the location is this.
fn is_at(location: &Location, place: Place) -> bool {
    location.parents == place.0 && location.interior.items() == place.1
}

/// Whether the prefix makes this of the location.
fn is_prefixed(
    location: Place,
    prefix: Place,
    want: Result<Place, LocationFault>,
) -> Result<bool, Full> {
    let location = place(location.0, location.1)?;
    let prefix = place(prefix.0, prefix.1)?;
    Ok(match prefixed(location, &prefix) {
        Ok(found) => match want {
            Ok(place) => is_at(&found, place),
            Err(_) => false,
        },
        Err(fault) => want == Err(fault),
    })
}

/// Whether this is left of the location where what leads back along the context of parachain 2 is dropped.
fn is_left(location: Place, left: Place) -> Result<bool, Full> {
    let context = chain(&[POLKADOT, PARA_2])?;
    let mut found = place(location.0, location.1)?;
    found.simplify(&context);
    Ok(is_at(&found, left))
}

/// A way along the context, and one past its root.
const LEFT: &[(Place, Place)] = &[
    (
        (2, &[POLKADOT, Junction::Parachain(3)]),
        (1, &[Junction::Parachain(3)]),
    ),
    ((3, &[POLKADOT]), (3, &[POLKADOT])),
];

/// The location, the target, and what the target calls the location.
const REANCHORED: &[(Place, Place, Place)] = &[
    (
        (1, &[PARA_2, PALLET, INDEX]),
        (1, &[PARA_2]),
        (0, &[PALLET, INDEX]),
    ),
    ((0, &[]), (1, &[]), (0, &[PARA_2000])),
    ((0, &[PALLET]), (1, &[PARA_2]), (1, &[PARA_2000, PALLET])),
    ((1, &[]), (1, &[PARA_2]), (1, &[])),
    ((2, &[]), (1, &[PARA_2]), (2, &[])),
    ((1, &[PARA_2]), (0, &[PALLET]), (2, &[PARA_2])),
];

/// Whether a target calls the location so, seen from parachain 2000.
fn is_called(location: Place, target: Place, seen: Place) -> Result<bool, Full> {
    let context = chain(&[POLKADOT, PARA_2000])?;
    let target = place(target.0, target.1)?;
    let found = place(location.0, location.1)?.reanchored(&target, &context);
    Ok(matches!(found, Ok(place) if is_at(&place, seen)))
}

/// Whether what is too far away isn't named.
fn is_too_far() -> Result<bool, Full> {
    let context = chain(&[POLKADOT, PARA_2000])?;
    let far = place(0, &[])?.reanchored(&place(9, &[])?, &context);
    Ok(far == Err(LocationFault::Full))
}

/// Parents, junctions, the path, and whether the name is the shortest.
const PATHS: &[(u8, &[Junction], Result<&[Junction], PathFault>, bool)] = &[
    (0, &[], Ok(&[POLKADOT, PARA_2000]), true),
    (1, &[PARA_2], Ok(&[POLKADOT, PARA_2]), true),
    (1, &[PARA_2000], Ok(&[POLKADOT, PARA_2000]), false),
    (
        0,
        &[Junction::OnlyChild],
        Ok(&[POLKADOT, PARA_2000, Junction::OnlyChild]),
        false,
    ),
    (2, &[POLKADOT], Ok(&[POLKADOT]), false),
    (3, &[], Err(PathFault::PastRoot), false),
    (0, &[PALLET; 7], Err(PathFault::Full), true),
];

/// Whether the location has this path from parachain 2000, or none for this cause, and whether its name is the shortest there.
fn leads(
    parents: u8,
    junctions: &[Junction],
    want: Result<&[Junction], PathFault>,
    normal: bool,
) -> Result<bool, Full> {
    let context = chain(&[POLKADOT, PARA_2000])?;
    let location = place(parents, junctions)?;
    let is_path = match location.path(&context) {
        Ok(path) => Ok(path.items()) == want,
        Err(fault) => Err(fault) == want,
    };
    Ok(is_path && location.is_normal(&context) == normal)
}

/// Locations in their order.
const RISING: &[Place] = &[
    (0, &[]),
    (0, &[POLKADOT]),
    (0, &[PARA_2, Junction::OnlyChild]),
    (0, &[PARA_2, POLKADOT]),
    (0, &[PARA_2000, PARA_2]),
    (1, &[]),
];

/// Whether the first location comes before the second.
fn is_before(first: Place, second: Place) -> Result<bool, Full> {
    let first = place(first.0, first.1)?;
    let second = place(second.0, second.1)?;
    Ok(first.cmp(&second) == Ordering::Less && first < second)
}

/// Whether each location comes before the next.
fn are_rising() -> Result<bool, Full> {
    for (first, second) in RISING.iter().zip(&RISING[1..]) {
        if !is_before(*first, *second)? {
            return Ok(false);
        }
    }
    Ok(true)
}

/// A part of a body.
const VOICE: Junction = Junction::Plurality {
    id: BodyId::Unit,
    part: BodyPart::Voice,
};

const MEMBERS: Junction = Junction::Plurality {
    id: BodyId::Unit,
    part: BodyPart::Members { count: 3 },
};

/// Whether this is the text.
fn is_text(text: Result<String, AllocError>, want: &str) -> Result<bool, AllocError> {
    Ok(text?.as_str() == want)
}

/// Whether the refusals say why.
fn say_why(alloc: Global) -> Result<bool, AllocError> {
    let past = "more parents than the context has junctions";
    Ok(
        is_text(Full.to_string(alloc), "more than eight junctions")?
            && is_text(
                LocationFault::TooHigh.to_string(alloc),
                "more than 255 parents",
            )?
            && is_text(PathFault::PastRoot.to_string(alloc), past)?,
    )
}

#[test]
fn locations_and_their_paths(rt: HostRuntime) -> Result<(), Fail> {
    for (location, prefix, want) in PREFIXED {
        assert!(rt; is_prefixed(*location, *prefix, *want)?);
    }
    for (location, left) in LEFT {
        assert!(rt; is_left(*location, *left)?);
    }
    for (location, target, seen) in REANCHORED {
        assert!(rt; is_called(*location, *target, *seen)?);
    }
    for (parents, junctions, path, normal) in PATHS {
        assert!(rt; leads(*parents, junctions, *path, *normal)?);
    }
    assert!(rt; has_few()? && lends_its_places()? && leads_back()?);
    assert!(rt; is_too_far()? && are_rising()?);
    assert!(rt; VOICE < MEMBERS);
    assert!(rt; are_apart(&PARA_2, &PARA_2000) && !are_apart(&PARA_2, &PARA_2));
    assert!(rt; !are_apart(&POLKADOT, &PALLET) && PARA_2 != PALLET);
    assert!(rt; say_why(rt.alloc())?);
    Ok(())
}

#[test]
fn the_laws_of_locations_can_be_called() {
    law_of_exact_location_orders();
    law_of_derived_order();
    law_of_paths();
}
