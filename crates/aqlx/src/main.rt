//! The program `aqlx`: the top call over the real files, standard input, output and error.
//!
//! It ends with the status's code, or with 6 where memory is wanting. Where standard input is a regular file, it is read
//! at places, so that several workers can look at what is left; else it is a stream. Stands on `aqlx_top` for all
//! that it does and on `aql_io` for the real files and streams.
#![tactic(auto)]

use aql_io::{FileSource, Files, RealFiles, RealSink, RealSource, Sink, Source};
use aqlx_top::aqlx;
use run_pool::Workers;
use span_token::OutOfMemory;
use std::alloc::Global;
use std::io::{ErrorKind, Seek, SeekFrom};
use std::process::ExitCode;
use std::rt::Env;
use std::thread::Threads;
use std::{env, fs, rt};

/// The exit status where memory is wanting.
const OUT_OF_MEMORY: u8 = 6;

/// The command words without the program's own name. Words that aren't UTF-8 match no form, so none are
/// given for them.
fn words(alloc: Global, rt: &(impl Env + AllocGlobal)) -> Result<Vec<String>, OutOfMemory> {
    match env::args(rt) {
        Ok(all) => Ok(all.skip(1).collect(alloc)?),
        Err(refused) => {
            if refused.kind() == ErrorKind::OutOfMemory {
                Err(OutOfMemory)
            } else {
                Ok(Vec::new(alloc))
            }
        }
    }
}

/// The name under which the system has standard input.
const STANDARD_INPUT: &str = "/proc/self/fd/0";

/// Where the system tells the place of standard input.
const ITS_PLACE: &str = "/proc/self/fdinfo/0";

/// Standard input as a file, and its place in bytes, where it is a regular file that has places and can be opened once
/// more. Of anything else, as a pipe, nothing is opened, since that may wait.
fn standard_file<R: rt::Files + AllocGlobal>(rt: &R) -> Option<(R::File, u64)> {
    let is_file = fs::metadata(rt, STANDARD_INPUT).ok()?.is_file();
    if !is_file {
        return None;
    }
    let told = fs::read_to_string(rt, ITS_PLACE).ok()?;
    let place = place_told(&told)?;
    let mut file = fs::open(rt, STANDARD_INPUT).ok()?;
    file.seek(SeekFrom::Start(place)).ok()?;
    Some((file, place))
}

/// The place that the first line tells, as `pos:` and a number.
fn place_told(told: &str) -> Option<u64> {
    let line = told.lines().next()?;
    line.strip_prefix("pos:")?.trim().parse::<u64>().ok()
}

/// Does what the words ask for, and gives the exit status.
fn carry_out<R: Threads + Sync, F: Files, S: Source + Sync, O: Sink, E: Sink>(
    rt: &R,
    alloc: Global,
    words: &Vec<String>,
    files: &mut F,
    corpus: &mut S,
    out: &mut O,
    err: &mut E,
) -> ExitCode {
    match aqlx(rt, alloc, words, files, corpus, out, err, &mut Workers) {
        Ok(status) => ExitCode::from(status.code()),
        Err(OutOfMemory) => ExitCode::from(OUT_OF_MEMORY),
    }
}

fn main(rt: HostRuntime) -> ExitCode {
    let alloc = rt.alloc();
    let Ok(words) = words(alloc, &rt) else {
        return ExitCode::from(OUT_OF_MEMORY);
    };
    let mut files = RealFiles::new(&rt);
    let mut out = RealSink::new(rt.stdout());
    let mut err = RealSink::new(rt.stderr());
    match standard_file(&rt) {
        Some((file, place)) => {
            let mut corpus = FileSource::new(file, place);
            carry_out(
                &rt,
                alloc,
                &words,
                &mut files,
                &mut corpus,
                &mut out,
                &mut err,
            )
        }
        None => {
            let mut corpus = RealSource::new(rt.stdin());
            carry_out(
                &rt,
                alloc,
                &words,
                &mut files,
                &mut corpus,
                &mut out,
                &mut err,
            )
        }
    }
}
