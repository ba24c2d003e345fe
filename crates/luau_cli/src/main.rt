//! The command line of the Luau compiler and sandbox.
#![tactic(auto)]

#[cfg(test)]
mod chunk_tests;
mod chunks;
mod outcome;
mod refusal;
mod reply;
mod script;
#[cfg(test)]
mod tests;
mod top;
mod words;

use outside_io::{OsFiles, OsSink};
use std::process::ExitCode;
use std::rt::Env;
use std::{env, io};
use top::{OUT_OF_MEMORY, top};

fn main(rt: HostRuntime) -> ExitCode {
    let mut out = OsSink::new(rt.stdout());
    let mut report = OsSink::new(rt.stderr());
    let Ok(files) = rt.clone() else {
        return ExitCode::from(OUT_OF_MEMORY);
    };
    let mut files = OsFiles::new(files);
    let status = match words_given(&rt) {
        Ok(words) => top(
            rt.alloc(),
            words.as_slice(),
            &mut files,
            &mut out,
            &mut report,
        ),
        Err(error) if error.kind() == io::ErrorKind::OutOfMemory => OUT_OF_MEMORY,
        Err(_) => top(rt.alloc(), &[], &mut files, &mut out, &mut report),
    };
    ExitCode::from(status)
}

/// The words after the program's name. They fail as a whole where one is not UTF-8.
fn words_given(rt: &(impl Env + AllocGlobal)) -> io::Result<Vec<String>> {
    Ok(env::args(rt)?.skip(1).collect(rt.alloc())?)
}
