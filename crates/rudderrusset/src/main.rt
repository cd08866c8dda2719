//! The program: the run over the standard streams.
#![tactic(auto)]

use std::alloc::Global;
use std::process::ExitCode;
use std::{env, io};
use xcm_cli::run;
use xcm_io::{StdSink, StdSource};

/// The status for out of memory.
const NO_MEMORY: u8 = 8;

/// The bytes of a block that the C library maps on its own.
const BLOCK: usize = 2 << 20;

/// Takes a block and gives it back. The C library then keeps up to twice as many bytes of what is freed, so that not every message has
/// to ask the system for its memory anew. Nothing is written there, and nothing comes of it where memory is refused.
fn keep_what_is_freed(alloc: Global) {
    let _ = Vec::<u8>::with_capacity(alloc, BLOCK);
}

/// The words of the command line. Where one of them isn't UTF-8, no words are handed on, which is a faulty command line too.
fn words(rt: &HostRuntime, alloc: Global) -> io::Result<Vec<String>> {
    match env::args(rt) {
        Ok(args) => Ok(args.skip(1).collect(alloc)?),
        Err(error) => {
            if error.kind() == io::ErrorKind::OutOfMemory {
                return Err(error);
            }
            Ok(Vec::new(alloc))
        }
    }
}

fn main(rt: HostRuntime) -> ExitCode {
    let alloc = rt.alloc();
    keep_what_is_freed(alloc);
    let Ok(words) = words(&rt, alloc) else {
        return ExitCode::from(NO_MEMORY);
    };
    let mut input = StdSource::new(rt.stdin());
    let mut out = StdSink::new(rt.stdout());
    match run(alloc, &words, &mut input, &mut out) {
        Ok(status) => ExitCode::from(status.code()),
        Err(_) => ExitCode::from(NO_MEMORY),
    }
}
