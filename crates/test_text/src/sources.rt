//! Sources and sinks: pieces, listed calls, the sink's room, and the adapters over the streams of `std`.

use std::alloc::{AllocError, Global};
use std::io::{self, Cursor, ErrorKind, Read, Write};
use std::test::Fail;
use xcm_io::{Failed, MemSink, MemSource, Sink, Source, StdSink, StdSource, write_whole};

/// A stream over memory that is interrupted once, at its first call.
#[derive(Drop)]
struct Interrupting<S> {
    inner: S,
    was_interrupted: bool,
}

/// An interrupted stream over this one.
fn interrupted_once<S>(inner: S) -> Interrupting<S> {
    Interrupting {
        inner,
        was_interrupted: false,
    }
}

impl<R: Read> Read for Interrupting<R> {
    fn read(&mut self, buf: &mut [u8]) -> io::Result<usize> {
        if !self.was_interrupted {
            self.was_interrupted = true;
            return Err(ErrorKind::Interrupted.into());
        }
        self.inner.read(buf)
    }
}

impl<W: Write> Write for Interrupting<W> {
    fn write(&mut self, bytes: &[u8]) -> io::Result<usize> {
        if !self.was_interrupted {
            self.was_interrupted = true;
            return Err(ErrorKind::Interrupted.into());
        }
        self.inner.write(bytes)
    }

    fn flush(&mut self) -> io::Result<()> {
        self.inner.flush()
    }
}

/// What a source gives until its end or its first fault, and whether it came to its end.
fn read_all<S: Source>(alloc: Global, source: &mut S) -> Result<(Vec<u8>, bool), AllocError> {
    let mut bytes = Vec::new(alloc);
    let mut buf = [0; 5];
    for _ in 0..1000 {
        match source.read(&mut buf) {
            Ok(0) => return Ok((bytes, true)),
            Ok(count) => bytes.extend_from_slice(&buf[..count])?,
            Err(Failed) => return Ok((bytes, false)),
        }
    }
    Ok((bytes, false))
}

/// Pieces, the call that fails, and what comes before the end or the fault.
const PIECES: &[(usize, u64, &str)] = &[
    (1, 0, "twelve bytes"),
    (2, 0, "twelve bytes"),
    (7, 0, "twelve bytes"),
    (4096, 0, "twelve bytes"),
    (4096, 1, ""),
    (4, 3, "twelve b"),
];

/// Whether a source of twelve bytes gives these until its end, or until the call that fails.
fn gives(alloc: Global, piece: usize, failing: u64, want: &str) -> Result<bool, Fail> {
    // for the prover: each piece has at least one byte
    if piece == 0 {
        return Ok(false);
    }
    let bytes = Vec::from_slice(alloc, b"twelve bytes")?;
    let mut source = MemSource::new(bytes, piece, vec![in alloc; failing]?);
    let (given, ended) = read_all(alloc, &mut source)?;
    Ok(given.as_slice() == want.as_bytes() && ended == (failing == 0))
}

#[test]
fn a_source_gives_its_bytes_by_pieces_and_fails_where_listed(rt: HostRuntime) -> Result<(), Fail> {
    for (piece, failing, want) in PIECES {
        assert!(rt; gives(rt.alloc(), *piece, *failing, want)?, "piece {piece}");
    }
    Ok(())
}

/// What reads answer, and what the buffer holds then: the buffer's length, a fault, what is left, the end of it, a fault, the end.
const READS: &[(Result<usize, Failed>, &[u8])] = &[
    (Ok(3), b"abc"),
    (Err(Failed), b"abc"),
    (Ok(3), b"def"),
    (Ok(1), b"gef"),
    (Err(Failed), b"gef"),
    (Ok(0), b"gef"),
];

#[test]
fn a_read_that_fails_moves_nothing(rt: HostRuntime) -> Result<(), Fail> {
    let alloc = rt.alloc();
    let bytes = Vec::from_slice(alloc, b"abcdefg")?;
    let mut source = MemSource::new(bytes, 4, vec![in alloc; 2, 5]?);
    let mut buf = *b"---";
    for (want, held) in READS {
        assert!(rt; source.read(&mut buf) == *want);
        assert!(rt; buf.as_slice() == *held);
    }
    Ok(())
}

/// What writes of four bytes answer.
const WRITES: &[Result<usize, Failed>] = &[
    Ok(3),
    Err(Failed),
    Ok(3),
    Ok(2),
    Err(Failed),
    Err(Failed),
];

#[test]
fn a_sink_fills_its_room_and_fails_where_listed(rt: HostRuntime) -> Result<(), Fail> {
    let alloc = rt.alloc();
    let mut sink = MemSink::new(alloc, 8, 3, vec![in alloc; 2]?)?;
    for want in WRITES {
        assert!(rt; sink.write(b"abcd") == *want);
    }
    assert!(rt; sink.bytes() == b"abcabcab".as_slice());
    Ok(())
}

/// The room, the piece, the one call that fails, and what is written of eight bytes; a piece that failed isn't tried again.
const ROOMS: &[(usize, usize, u64, &str)] = &[
    (20, 1, 0, "eight by"),
    (8, 3, 0, "eight by"),
    (20, 4096, 0, "eight by"),
    (7, 3, 0, "eight b"),
    (20, 3, 3, "eight "),
    (20, 8, 1, ""),
];

/// Whether of eight bytes these are written, with a fault unless they are all.
fn takes(alloc: Global, room: usize, piece: usize, failing: u64, want: &str) -> Result<bool, Fail> {
    // for the prover: each piece has at least one byte
    if piece == 0 {
        return Ok(false);
    }
    let mut sink = MemSink::new(alloc, room, piece, vec![in alloc; failing]?)?;
    let is_whole = write_whole(&mut sink, b"eight by").is_ok();
    Ok(sink.bytes() == want.as_bytes() && is_whole == (want.len() == 8))
}

#[test]
fn writing_whole_ends_at_the_first_fault(rt: HostRuntime) -> Result<(), Fail> {
    for (room, piece, failing, want) in ROOMS {
        assert!(rt;
            takes(rt.alloc(), *room, *piece, *failing, want)?,
            "piece {piece}, room {room}"
        );
    }
    Ok(())
}

#[test]
fn an_interrupted_read_is_a_fault(rt: HostRuntime) -> Result<(), Fail> {
    let alloc = rt.alloc();
    let mut source = StdSource::new(interrupted_once(b"read by std".as_slice()));
    let (given, ended) = read_all(alloc, &mut source)?;
    assert!(rt; given.is_empty() && !ended);
    // the next call goes on where the fault was
    let (given, ended) = read_all(alloc, &mut source)?;
    assert!(rt; given.as_slice() == b"read by std".as_slice() && ended);
    Ok(())
}

#[test]
fn an_interrupted_write_is_a_fault(rt: HostRuntime) {
    let mut taken = Vec::new(rt.alloc());
    let mut sink = StdSink::new(interrupted_once(Cursor::new(&mut taken)));
    assert!(rt; write_whole(&mut sink, b"not tried again") == Err(Failed));
    assert!(rt; write_whole(&mut sink, b"written") == Ok(()));
    assert!(rt; taken.as_slice() == b"written".as_slice());
}

#[test]
fn a_writer_that_takes_nothing_is_a_fault(rt: HostRuntime) {
    let mut room = [0; 4];
    let mut sink = StdSink::new(Cursor::new(room.as_mut_slice()));
    assert!(rt; write_whole(&mut sink, b"too long") == Err(Failed));
    assert!(rt; room.as_slice() == b"too ".as_slice());
}
