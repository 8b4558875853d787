//! `joern`: a static analyser for C. The words of the command line say what it does; `joern_top`
//! does it.
#![tactic(auto)]

use joern_io::{DiskFiles, StdSink};
use joern_top::joern_one;
use std::env;
use std::io::{self, ErrorKind};
use std::process::ExitCode;

/// The status of words that are not UTF-8.
const NOT_UTF8: u8 = 12;

/// The status of want of memory while the words are collected.
const NO_MEMORY: u8 = 9;

fn main(rt: HostRuntime) -> ExitCode {
    match words(&rt) {
        Ok(words) => {
            let mut files = DiskFiles::new(&rt);
            let mut out = StdSink::new(&rt);
            ExitCode::from(joern_one(rt.alloc(), &words, &mut files, &mut out).code())
        }
        Err(error) if error.kind() == ErrorKind::InvalidData => ExitCode::from(NOT_UTF8),
        Err(_) => ExitCode::from(NO_MEMORY),
    }
}

/// The words of the command line, without the program's own name.
fn words(rt: &HostRuntime) -> io::Result<Vec<String>> {
    let mut words = Vec::new(rt.alloc());
    for word in env::args(rt)?.skip(1) {
        words.push(word)?;
    }
    Ok(words)
}
