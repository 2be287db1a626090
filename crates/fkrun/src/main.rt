//! Plays the deployment that comes on standard input, and prints its history.
#![tactic(auto)]

use fk_base::{StdSink, StdSource};
use fk_run::fk_run;
use std::io::{BufWriter, Write};
use std::process::ExitCode;
use std::{env, io};

/// How many bytes are written at a time.
const BUFFER: usize = 65_536;

/// The words behind the program's name.
fn words(rt: &HostRuntime) -> io::Result<Vec<String>> {
    let mut words = Vec::new(rt.alloc());
    for word in env::args(rt)?.skip(1) {
        words.push(word)?;
    }
    Ok(words)
}

/// The status of the run, whose output is buffered. What is left in the buffer at the end is
/// written then; a failure of that is a failed write.
fn status(rt: &HostRuntime, words: &[String]) -> u8 {
    let Ok(mut output) = BufWriter::with_capacity(rt.alloc(), BUFFER, rt.stdout()) else {
        return 71;
    };
    let mut source = StdSource::new(rt.stdin());
    let mut sink = StdSink::new(&mut output);
    let status = fk_run(rt.alloc(), words, &mut source, &mut sink, &mut None);
    match output.flush() {
        Ok(()) => status,
        Err(_) => 74,
    }
}

/// Ends with the status of the run. A word that isn't UTF-8 is one word too many.
fn main(rt: HostRuntime) -> ExitCode {
    match words(&rt) {
        Ok(words) => ExitCode::from(status(&rt, words.as_slice())),
        Err(fault) if fault.kind() == io::ErrorKind::OutOfMemory => ExitCode::from(71),
        Err(_) => ExitCode::from(64),
    }
}
