//! The reading and the printing of a grid, in memory.
//!
//! The words are the number of rounds, the file's name, and `print` where its grid is read once and printed each round; else each
//! round reads its text. What is told is the sum of all values of the last grid that was read, or the number of bytes that all
//! rounds printed. `bench/grid` tells the time of a byte from two such runs.

use crate::words::{number_at, word_at};
use grid_text::{GridRefusal, print_grid, read_grid};
use layer_tiles::Layer;
use map_outside::{Counts, FileShelf, Shelf};
use std::alloc::Global;

/// The most bytes of a file.
const LONGEST_FILE: u64 = 67_108_864;

// The sum of all values of a layer.
fn total(layer: &Layer) -> i64 {
    let mut tally = Counts::new();
    let mut total: i64 = 0;
    for at in 0..layer.extent().cells() {
        let value = layer.cell(at, &mut tally).get().unwrap_or(0);
        total = total.wrapping_add(value);
    }
    total
}

// Reads the text so many times, and at least once.
fn reads(alloc: Global, bytes: &[u8], count: u32) -> Result<i64, GridRefusal> {
    let mut grid = read_grid(alloc, bytes, 1)?;
    for stamp in 1..count {
        grid = read_grid(alloc, bytes, stamp as u64)?;
    }
    Ok(total(&grid.layer))
}

// Reads the text once, and prints its grid so many times.
fn prints(alloc: Global, bytes: &[u8], count: u32) -> Result<i64, GridRefusal> {
    let grid = read_grid(alloc, bytes, 1)?;
    let mut tally = Counts::new();
    let mut printed: i64 = 0;
    for _ in 0..count {
        let Ok(text) = print_grid(alloc, &grid.header, &grid.layer, &mut tally) else {
            return Err(GridRefusal::NoMemory);
        };
        printed = printed.wrapping_add(text.len() as i64);
    }
    Ok(printed)
}

/// What is told of so many rounds.
pub fn measure(rt: &HostRuntime, words: &[&str]) -> Option<i64> {
    let alloc = rt.alloc();
    let name = String::from_str(alloc, word_at(words, 1)).ok()?;
    let mut shelf = FileShelf::new(rt);
    let bytes = shelf.fetch(alloc, &name, LONGEST_FILE).ok()?;
    let count = number_at(words, 0);
    match word_at(words, 2) {
        "print" => prints(alloc, &bytes, count).ok(),
        _ => reads(alloc, &bytes, count).ok(),
    }
}
