//! Measures what makes and reads texts, names and plans, for the scripts of `bench/`.
//!
//! The first word names the subject, and the others say what is measured, as the subject's own file tells; `all` runs each subject
//! once. What is printed depends on all that was done, so that nothing can be left out.
#![tactic(auto)]

mod display;
mod graph;
mod grid;
mod plans;
mod scene;
mod words;

use std::fmt::Display;
use std::process::ExitCode;
use std::{env, io};
use words::word_at;

const USAGE: &str =
    "usage: bench_texts SUBJECT WORD.., where SUBJECT is grid, graph, plans or display; bench_texts all";

/// A small run of each subject.
const EACH: [&[&str]; 4] = [
    &["grid", "2", "small.asc"],
    &["graph", "2"],
    &["plans", "2", "row"],
    &["display", "1", "legend"],
];

/// Why a run ends early.
#[derive(Clone, Copy)]
enum Halt {
    Usage,
    Failed,
}

// Prints what was found, where it was.
fn tell<T: Display + Drop>(rt: &HostRuntime, found: Option<T>) -> Result<(), Halt> {
    let Some(found) = found else {
        return Err(Halt::Failed);
    };
    match println!(rt; "{found}") {
        Ok(()) => Ok(()),
        Err(_) => Err(Halt::Failed),
    }
}

// A run of the subject that the first word names.
fn run(rt: &HostRuntime, words: &[&str]) -> Result<(), Halt> {
    let Some((subject, rest)) = words.split_first() else {
        return Err(Halt::Usage);
    };
    let alloc = rt.alloc();
    match *subject {
        "grid" => tell(rt, grid::measure(rt, rest)),
        "graph" => tell(rt, graph::measure(alloc, rest)),
        "plans" => tell(rt, plans::measure(alloc, rest)),
        "display" => tell(rt, display::measure(alloc, rest)),
        _ => Err(Halt::Usage),
    }
}

// A run of each subject, or of the one that the words name.
fn run_all(rt: &HostRuntime, words: &[&str]) -> Result<(), Halt> {
    if word_at(words, 0) != "all" {
        return run(rt, words);
    }
    for each in EACH {
        run(rt, each)?;
    }
    Ok(())
}

// The words after the program's name.
fn arguments(rt: &HostRuntime) -> io::Result<Vec<String>> {
    let mut words = Vec::new(rt.alloc());
    for word in env::args(rt)?.skip(1) {
        words.push(word)?;
    }
    Ok(words)
}

// A run of the program.
fn run_here(rt: &HostRuntime) -> Result<(), Halt> {
    let Ok(owned) = arguments(rt) else {
        return Err(Halt::Usage);
    };
    let mut words = Vec::new(rt.alloc());
    for word in &owned {
        if words.push(word.as_str()).is_err() {
            return Err(Halt::Failed);
        }
    }
    run_all(rt, &words)
}

fn main(rt: HostRuntime) -> ExitCode {
    match run_here(&rt) {
        Ok(()) => ExitCode::from(0),
        Err(Halt::Failed) => ExitCode::from(1),
        Err(Halt::Usage) => match eprintln!(&rt; "{USAGE}") {
            Ok(()) => ExitCode::from(2),
            Err(_) => ExitCode::from(2),
        },
    }
}
