//! The program: it hands [`run`] the arguments, the system's files, the standard streams and a tally, and ends with the code of the
//! [`Status`] that it answers.
#![tactic(auto)]

ghost use Rattle.std.specs.Prelude.{◌≡◌, ◌↔◌, IsNone};
ghost use Rattle.map_machine.specs.Words.{form_of};

use map_outside::{Counts, FileShelf, ReadSource, WriteSink};
use map_run::{Status, run};
use std::process::ExitCode;
use std::thread::Threads;
use std::{env, io};
use tile_workers::NoGate;

// The words after the program's name.
fn arguments(rt: &HostRuntime) -> io::Result<Vec<String>> {
    let mut words = Vec::new(rt.alloc());
    for word in env::args(rt)?.skip(1) {
        words.push(word)?;
    }
    Ok(words)
}

// A run of these words over the system's files and the standard streams.
fn run_here<R: Threads + Sync>(rt: &HostRuntime, threads: &R, words: &[String]) -> Status
    ensures { (result ≡ Status.Usage) ↔ IsNone (form_of words.now) }
{
    let mut shelf = FileShelf::new(rt);
    let mut source = ReadSource::new(rt.stdin());
    let mut sink = WriteSink::new(rt.stdout());
    let mut tally = Counts::new();
    run(
        threads,
        rt.alloc(),
        words,
        &mut shelf,
        &mut source,
        &mut sink,
        &NoGate,
        &mut tally,
    )
}

// Words that are not UTF-8 are of no form.
fn main(rt: HostRuntime) -> ExitCode {
    let status = match arguments(&rt) {
        Ok(words) => run_here(&rt, &rt, &words),
        Err(error) => match error.kind() {
            io::ErrorKind::OutOfMemory => Status::NoMemory,
            _ => Status::Usage,
        },
    };
    ExitCode::from(status.code())
}
