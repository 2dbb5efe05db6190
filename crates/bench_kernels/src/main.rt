//! Measures the kernels, the layers under them and the phases over them, in memory, for the scripts of `bench/`.
//!
//! The first word names the subject, and the others say what is measured, as the subject's own file tells; `all` runs each subject
//! once. What is printed is a number that depends on all that was done, so that nothing can be left out.
#![tactic(auto)]

mod flow;
mod focal;
mod layers;
mod local;
mod maps;
mod phases;
mod regions;
mod sight;
mod spread;
mod zones;

use maps::word_at;
use std::fmt::Display;
use std::process::ExitCode;
use std::thread::Threads;
use std::{env, io};

const USAGE: &str =
    "usage: bench_kernels SUBJECT WORD.., where SUBJECT is layers, local, focal, regions, spread, flow, zones, sight or phases; bench_kernels all";

/// A small run of each subject.
const EACH: [&[&str]; 9] = [
    &["layers", "10", "commit"],
    &["local", "1"],
    &["focal", "1", "near"],
    &["regions", "1", "first"],
    &["spread", "1", "first"],
    &["flow", "1", "first"],
    &["zones", "1", "fresh"],
    &["sight", "1", "near"],
    &["phases", "2", "3", "4", "5"],
];

/// Why a run ends early.
#[derive(Clone, Copy)]
enum Halt {
    Usage,
    Failed,
}

// Prints a number, where there is one.
fn tell<T: Display + Drop>(rt: &HostRuntime, number: Option<T>) -> Result<(), Halt> {
    let Some(number) = number else {
        return Err(Halt::Failed);
    };
    match println!(rt; "{number}") {
        Ok(()) => Ok(()),
        Err(_) => Err(Halt::Failed),
    }
}

// A run of the subject that the first word names.
fn run<R: Threads + Sync>(rt: &HostRuntime, threads: &R, words: &[&str]) -> Result<(), Halt> {
    let Some((subject, rest)) = words.split_first() else {
        return Err(Halt::Usage);
    };
    let alloc = rt.alloc();
    match *subject {
        "layers" => tell(rt, layers::measure(alloc, rest)),
        "local" => tell(rt, local::measure(alloc, rest)),
        "focal" => tell(rt, focal::measure(alloc, rest)),
        "regions" => tell(rt, regions::measure(alloc, rest)),
        "spread" => tell(rt, spread::measure(alloc, rest)),
        "flow" => tell(rt, flow::measure(alloc, rest)),
        "zones" => tell(rt, zones::measure(alloc, rest)),
        "sight" => tell(rt, sight::measure(alloc, rest)),
        "phases" => tell(rt, phases::measure(threads, alloc, rest)),
        _ => Err(Halt::Usage),
    }
}

// A run of each subject, or of the one that the words name.
fn run_all<R: Threads + Sync>(rt: &HostRuntime, threads: &R, words: &[&str]) -> Result<(), Halt> {
    if word_at(words, 0) != "all" {
        return run(rt, threads, words);
    }
    for each in EACH {
        run(rt, threads, each)?;
    }
    Ok(())
}

// The words after the program's name.
fn arguments(rt: &HostRuntime) -> io::Result<Vec<String>> {
    let mut words = Vec::new(rt.alloc());
    for word in env::args(rt)?.skip(1) {
        words.push(word)?;
    }
    Ok(words)
}

// A run of the program.
fn run_here<R: Threads + Sync>(rt: &HostRuntime, threads: &R) -> Result<(), Halt> {
    let Ok(owned) = arguments(rt) else {
        return Err(Halt::Usage);
    };
    let mut words = Vec::new(rt.alloc());
    for word in &owned {
        if words.push(word.as_str()).is_err() {
            return Err(Halt::Failed);
        }
    }
    run_all(rt, threads, &words)
}

fn main(rt: HostRuntime) -> ExitCode {
    match run_here(&rt, &rt) {
        Ok(()) => ExitCode::from(0),
        Err(Halt::Failed) => ExitCode::from(1),
        Err(Halt::Usage) => match eprintln!(&rt; "{USAGE}") {
            Ok(()) => ExitCode::from(2),
            Err(_) => ExitCode::from(2),
        },
    }
}
