//! The program that writes the messages of trees, over the standard streams.
#![tactic(auto)]

use std::alloc::Global;
use std::process::ExitCode;
use std::{env, io};
use xcm_compose::compose;
use xcm_io::{StdSink, StdSource};

/// The status for out of memory.
const NO_MEMORY: u8 = 8;

/// The words of the command line. Where one of them isn't UTF-8, an empty word is handed on instead of all, which is a faulty command line too.
fn words(rt: &HostRuntime, alloc: Global) -> io::Result<Vec<String>> {
    match env::args(rt) {
        Ok(args) => Ok(args.skip(1).collect(alloc)?),
        Err(error) => {
            if error.kind() == io::ErrorKind::OutOfMemory {
                return Err(error);
            }
            let mut words = Vec::new(alloc);
            words.push(String::new(alloc))?;
            Ok(words)
        }
    }
}

fn main(rt: HostRuntime) -> ExitCode {
    let alloc = rt.alloc();
    let Ok(words) = words(&rt, alloc) else {
        return ExitCode::from(NO_MEMORY);
    };
    let mut input = StdSource::new(rt.stdin());
    let mut out = StdSink::new(rt.stdout());
    match compose(alloc, &words, &mut input, &mut out) {
        Ok(status) => ExitCode::from(status.code()),
        Err(_) => ExitCode::from(NO_MEMORY),
    }
}
