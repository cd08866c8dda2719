//! Programs, their limits and their counts.

use crate::message_values::unhex;
use asset_lists::Instance;
use scale_codec::{Cursor, Out};
use std::alloc::Global;
use std::test::Fail;
use versioned_xcm::{
    MAX_DEPTH, MAX_INSTRUCTIONS, WireFault, law_of_no_prefix, law_of_one_spelling, law_of_readers,
    law_of_writable, read_instance, read_program, write_instance, write_instruction, write_program,
};
use xcm_format::{Version, law_of_conversions, law_of_writable as law_of_writable_programs};
use xcm_program::{deep_count, deep_count_one, depth, depth_one, is_convertible, sends};

/// Programs within the limits: their hex in version 3, their instructions through all nested programs, their depth, how many
/// instructions send, and whether both versions can say them.
const PROGRAMS: &[(&str, u32, u32, u32, bool)] = &[
    ("00", 0, 1, 0, true),
    ("080a1914", 2, 1, 0, true),
    // a handler of two instructions, the second with an appendix of one
    ("0815080a1604172d", 5, 3, 0, true),
    // a report, and a report inside a teleport
    ("08230000040000110100000004230000040000", 3, 2, 3, true),
    // fees that are named by bytes, in an appendix
    (
        "04160413010707070707070707070707070707070707070707070707070707070707070707001400",
        2,
        2,
        0,
        false,
    ),
    // a filter that names a class by bytes
    (
        "040d0101010707070707070707070707070707070707070707070707070707070707070707010000",
        1,
        1,
        0,
        false,
    ),
    // seven appendices in one another
    ("0416041604160416041604160416040a", 8, 8, 0, true),
];

/// The counts of the program that the hex spells in version 3, if the hex is what is written for it.
fn measured(alloc: Global, hex: &str) -> Result<Option<(u32, u32, u32, bool)>, Fail> {
    let bytes = unhex(alloc, hex)?;
    let mut cursor = Cursor::new(bytes.as_slice());
    let program = read_program(alloc, &mut cursor, Version::V3)?;
    let mut out = Out::new(alloc);
    write_program(&mut out, &program, Version::V3)?;
    if out.bytes() != bytes.as_slice() || !cursor.rest().is_empty() {
        return Ok(None);
    }
    let count = deep_count(&program);
    let levels = depth(&program);
    let sending = sends(&program);
    Ok(Some((count, levels, sending, is_convertible(&program))))
}

/// Whether the hex is a program with these counts.
fn is_measured(
    alloc: Global,
    hex: &str,
    counts: (u32, u32, u32),
    convertible: bool,
) -> Result<bool, Fail> {
    let (count, levels, sending) = counts;
    Ok(measured(alloc, hex)? == Some((count, levels, sending, convertible)))
}

/// Hex at the front of which there is no program within the limits.
const REFUSED: &[&str] = &[
    "",
    // an index from 48 on, fewer instructions than the number says, a number of 2^32-1
    "0430",
    "080a",
    "03ffffffff0a",
    // eight appendices in one another, around one more instruction
    "04160416041604160416041604160416040a",
];

/// Whether no prefix of what the hex says is a program, and the cursor stays.
fn is_no_program(alloc: Global, hex: &str) -> Result<bool, Fail> {
    let bytes = unhex(alloc, hex)?;
    let mut cursor = Cursor::new(bytes.as_slice());
    let fault = read_program(alloc, &mut cursor, Version::V4).err();
    Ok(fault == Some(WireFault::NoSpelling) && cursor.rest() == bytes.as_slice())
}

/// Whether what follows a program is left.
fn leaves_the_rest(alloc: Global) -> Result<bool, WireFault> {
    let mut cursor = Cursor::new(&[4, 10, 10, 11]);
    let program = read_program(alloc, &mut cursor, Version::V4)?;
    Ok(program.items().len() == 1 && cursor.rest() == [10, 11].as_slice())
}

/// The first instruction of the program that the bytes spell in version 4: what is written for it, its instructions through the program
/// inside, and the depth of that. Nothing where there is none.
fn first_of(alloc: Global, bytes: &[u8]) -> Result<(Vec<u8>, u32, u32), Fail> {
    let mut cursor = Cursor::new(bytes);
    let program = read_program(alloc, &mut cursor, Version::V4)?;
    let items = program.items();
    let mut out = Out::new(alloc);
    if items.is_empty() {
        return Ok((out.into_vec(), 0, 0));
    }
    write_instruction(&mut out, &items[0], Version::V4)?;
    let count = deep_count_one(&items[0]);
    let levels = depth_one(&items[0]);
    Ok((out.into_vec(), count, levels))
}

/// Whether the first instruction of the program is written as this, and has so many instructions and levels.
fn is_first(alloc: Global, bytes: &[u8], want: &[u8], counts: (u32, u32)) -> Result<bool, Fail> {
    let (written, count, levels) = first_of(alloc, bytes)?;
    Ok(written.as_slice() == want && (count, levels) == counts)
}

/// Whether an instance goes both ways.
fn instance_goes(alloc: Global) -> Result<bool, Fail> {
    let mut cursor = Cursor::new(&[1, 28]);
    let mut out = Out::new(alloc);
    write_instance(&mut out, &Instance::Index(7))?;
    let read = read_instance(&mut cursor);
    Ok(read == Ok(Instance::Index(7)) && out.bytes() == [1, 28].as_slice())
}

#[test]
fn programs_are_read_measured_and_written(rt: HostRuntime) -> Result<(), Fail> {
    let alloc = rt.alloc();
    for (hex, count, levels, sending, convertible) in PROGRAMS {
        let counts = (*count, *levels, *sending);
        assert!(rt; is_measured(alloc, hex, counts, *convertible)?, "{hex}");
    }
    for hex in REFUSED {
        assert!(rt; is_no_program(alloc, hex)?, "{hex}");
    }
    assert!(rt; (MAX_INSTRUCTIONS, MAX_DEPTH) == (100, 8));
    assert!(rt; leaves_the_rest(alloc)?);
    // one instruction is written with its program
    assert!(rt; is_first(alloc, &[4, 0x15, 8, 10, 0x17], &[0x15, 8, 10, 0x17], (3, 1))?);
    assert!(rt; is_first(alloc, &[8, 0x19, 20, 10], &[0x19, 20], (1, 0))?);
    assert!(rt; instance_goes(alloc)?);
    Ok(())
}

#[test]
fn the_laws_of_programs_can_be_called() {
    law_of_one_spelling();
    law_of_no_prefix();
    law_of_writable();
    law_of_readers();
    law_of_conversions();
    law_of_writable_programs();
}
