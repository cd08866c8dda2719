//! Numbers, flags and bytes.

use scale_codec::{
    Cursor, Draft, NoSpelling, Out, WireFault, law_of_no_prefix, law_of_no_prefix_of_numbers,
    law_of_one_spelling, law_of_readers,
};
use std::alloc::{AllocError, Global};
use std::test::Fail;

/// Compact numbers and their one spelling, at the ends of each form.
const COMPACTS: &[(u128, &[u8])] = &[
    (0, &[0x00]),
    (1, &[0x04]),
    (63, &[0xfc]),
    (64, &[0x01, 0x01]),
    (69, &[0x15, 0x01]),
    (16_383, &[0xfd, 0xff]),
    (16_384, &[0x02, 0x00, 0x01, 0x00]),
    (65_535, &[0xfe, 0xff, 0x03, 0x00]),
    (1_073_741_823, &[0xfe, 0xff, 0xff, 0xff]),
    (1_073_741_824, &[0x03, 0x00, 0x00, 0x00, 0x40]),
    (
        100_000_000_000_000,
        &[0x0b, 0x00, 0x40, 0x7a, 0x10, 0xf3, 0x5a],
    ),
    (
        18_446_744_073_709_551_615,
        &[0x13, 0xff, 0xff, 0xff, 0xff, 0xff, 0xff, 0xff, 0xff],
    ),
    (
        340_282_366_920_938_463_463_374_607_431_768_211_455,
        &[
            0x33, 0xff, 0xff, 0xff, 0xff, 0xff, 0xff, 0xff, 0xff, 0xff, 0xff, 0xff, 0xff, 0xff,
            0xff, 0xff, 0xff,
        ],
    ),
];

/// No compact numbers: longer forms than the shortest, a last byte of 0, too many bytes, too few.
const NOT_COMPACT: &[&[u8]] = &[
    &[],
    &[0x01, 0x00],
    &[0xfd, 0x00],
    &[0x02, 0x00, 0x00, 0x00],
    &[0x03, 0xff, 0xff, 0xff, 0x3f],
    &[0x07, 0x00, 0x00, 0x00, 0x40, 0x00],
    &[0x37, 0, 0, 0, 0, 0, 0, 0, 0, 0, 0, 0, 0, 0, 0, 0, 0, 1],
    &[0x03, 0x00, 0x00, 0x00],
];

/// Whether the bytes are what is written for the number, and are read as it.
fn spells(alloc: Global, number: u128, bytes: &[u8]) -> Result<bool, AllocError> {
    let mut out = Out::new(alloc);
    out.put_compact(number)?;
    let mut cursor = Cursor::new(bytes);
    let read = cursor.compact_u128();
    Ok(out.bytes() == bytes && read == Ok(number) && cursor.rest().is_empty())
}

/// Whether no prefix of the bytes is a compact number, and the cursor stays.
fn is_no_number(bytes: &[u8]) -> bool {
    let mut cursor = Cursor::new(bytes);
    let read = cursor.compact_u128();
    read == Err(NoSpelling) && cursor.rest() == bytes
}

/// Whether compact numbers keep their range.
fn keeps_its_range() -> bool {
    let mut most = Cursor::new(&[0x03, 0xff, 0xff, 0xff, 0xff]);
    let mut past = Cursor::new(&[0x07, 0x00, 0x00, 0x00, 0x00, 0x01]);
    most.compact_u32() == Ok(0xffff_ffff)
        && past.compact_u32() == Err(NoSpelling)
        && past.compact_u64() == Ok(0x1_0000_0000)
}

#[test]
fn compact_numbers_both_ways(rt: HostRuntime) -> Result<(), Fail> {
    for (number, bytes) in COMPACTS {
        assert!(rt; spells(rt.alloc(), *number, bytes)?, "{number}");
    }
    for bytes in NOT_COMPACT {
        assert!(rt; is_no_number(bytes));
    }
    assert!(rt; keeps_its_range());
    Ok(())
}

/// A number of each width, two flags and two bytes more.
const MIXED: &[u8] = &[7, 1, 2, 3, 4, 1, 2, 3, 4, 5, 6, 7, 8, 1, 0, 9, 9];

/// Puts the numbers, and the flags and the bytes as bytes.
fn put_mixed(out: &mut Out) -> Result<(), AllocError> {
    out.put_u8(7)?;
    out.put_u32(0x0403_0201)?;
    out.put_u64(0x0807_0605_0403_0201)?;
    out.put_bytes(&[1, 0, 9, 9])
}

/// Whether they are written, and handed out as they were.
fn writes_mixed(alloc: Global) -> Result<bool, AllocError> {
    let mut out = Out::new(alloc);
    put_mixed(&mut out)?;
    let is_written = out.bytes() == MIXED;
    let bytes = out.into_vec();
    Ok(is_written && bytes.as_slice() == MIXED)
}

/// Whether the numbers and the flags are read one after the other.
fn reads_numbers(cursor: &mut Cursor<'_>) -> bool {
    let byte = cursor.u8();
    let short = cursor.u32_le();
    let long = cursor.u64_le();
    byte == Ok(7) && short == Ok(0x0403_0201) && long == Ok(0x0807_0605_0403_0201)
}

/// Whether the two flags are read, and nothing that two bytes of 9 aren't.
fn reads_flags(cursor: &mut Cursor<'_>) -> bool {
    let first = cursor.flag();
    let second = cursor.flag();
    let third = cursor.flag();
    first == Ok(true) && second == Ok(false) && third == Err(NoSpelling)
}

/// Whether the bytes left are too few for a number and for three bytes.
fn is_too_short(cursor: &mut Cursor<'_>) -> bool {
    let short = cursor.u32_le();
    let long = cursor.u64_le();
    let three = cursor.take(3);
    let array = cursor.take_array::<3>();
    short == Err(NoSpelling)
        && long == Err(NoSpelling)
        && three == Err(NoSpelling)
        && array == Err(NoSpelling)
}

/// Whether two bytes of 9 are left, which are read in either way.
fn reads_the_rest(cursor: &mut Cursor<'_>) -> bool {
    let array = cursor.take_array::<1>();
    let last = cursor.take(1);
    let none = cursor.u8();
    array == Ok([9]) && last == Ok([9].as_slice()) && none == Err(NoSpelling)
}

/// Whether all of them are read in turn.
fn reads_mixed() -> bool {
    let mut cursor = Cursor::new(MIXED);
    reads_numbers(&mut cursor)
        && reads_flags(&mut cursor)
        && is_too_short(&mut cursor)
        && reads_the_rest(&mut cursor)
}

/// Puts one number of each width into a draft, and fails then where that is asked for.
fn put_numbers(draft: &mut Draft, fails: bool) -> Result<(), AllocError> {
    draft.put_u8(7)?;
    draft.put_u32(1)?;
    draft.put_u64(2)?;
    draft.put_compact(64)?;
    draft.put_bytes(&[9])?;
    if fails { Err(AllocError) } else { Ok(()) }
}

/// Whether a draft that is settled so leaves these bytes.
fn leaves(alloc: Global, fails: bool, want: &[u8]) -> Result<bool, AllocError> {
    let mut out = Out::new(alloc);
    out.put_u8(5)?;
    let mut draft = out.draft();
    let written = put_numbers(&mut draft, fails);
    let is_cut = out.settle(draft, written).is_err();
    Ok(is_cut == fails && out.bytes() == want)
}

/// Whether a cursor from which a byte was read has so many bytes left when that is settled so.
fn goes_back(read: Result<u8, NoSpelling>, left: usize) -> bool {
    let mut cursor = Cursor::new(&[1, 2, 3]);
    let start = cursor.rest();
    let first = cursor.u8();
    let settled = cursor.settle(start, read);
    first == Ok(1) && settled == read && cursor.rest().len() == left
}

/// What a draft leaves that is kept.
const KEPT: &[u8] = &[5, 7, 1, 0, 0, 0, 2, 0, 0, 0, 0, 0, 0, 0, 1, 1, 9];

/// The texts of the refusals.
const TEXTS: &str =
    "no prefix of the bytes spells such a value; no prefix of the bytes spells such a value; out of memory";

/// Whether the refusals have these texts.
fn says_why(alloc: Global) -> Result<bool, AllocError> {
    let alloc = Out::new(alloc).allocator();
    let (spelling, memory) = (WireFault::NoSpelling, WireFault::Memory);
    let text = format!(in alloc; "{NoSpelling}; {spelling}; {memory}")?;
    Ok(text.as_str() == TEXTS)
}

#[test]
fn numbers_flags_and_bytes(rt: HostRuntime) -> Result<(), Fail> {
    let alloc = rt.alloc();
    assert!(rt; writes_mixed(alloc)?);
    assert!(rt; reads_mixed());
    // a draft is kept or cut back, and a refused read goes back
    assert!(rt; leaves(alloc, false, KEPT)?);
    assert!(rt; leaves(alloc, true, &[5])?);
    assert!(rt; goes_back(Ok(1), 2) && goes_back(Err(NoSpelling), 3));
    assert!(rt; says_why(alloc)?);
    Ok(())
}

#[test]
fn the_laws_of_numbers_can_be_called() {
    law_of_one_spelling::<u8>();
    law_of_no_prefix::<u8>();
    law_of_no_prefix_of_numbers();
    law_of_readers();
}
