//! Displays of layers of 1201 by 1201 cells, in memory.
//!
//! The words are the number of rounds, what is printed, and the values. `legend` prints the legend of a layer, `table` the table of
//! it and of another one with as many zones, `show` its signs, `symbols` its signs where a hundred values have symbols, and `grid`
//! its text. The values are a thousand `mixed` ones without an order, `blocks` of one value, or all `different`. What is told is the
//! number of bytes of all rounds, and the sum of the bytes of the last one. `bench/display` tells the time of a round from two such runs.

ghost use Rattle.std.specs.Prelude.{◌≡◌, IfOk};

use crate::words::{number_at, word_at};
use grid_text::{Header, print_grid, read_grid};
use layer_tiles::{Cell, Extent, Layer, NoMemory, Text};
use map_display::{print_legend, print_show, print_table};
use map_marks::{Mark, Marks};
use map_nums::Value;
use map_outside::Counts;
use map_words::Name;
use std::alloc::Global;

/// The rows and the columns of the layers.
const SIDE: u32 = 1201;

/// The header that a grid is printed under.
const HEADER: &[u8] = b"ncols 1\nnrows 1\nxllcorner 0\nyllcorner 0\ncellsize 1\n0\n";

/// What a round prints.
#[derive(Clone, Copy)]
enum Work {
    Legend,
    Table,
    Show,
    Symbols,
    Grid,
}

/// The values of a layer.
#[derive(Clone, Copy)]
enum Kind {
    /// From 0 to 999 without an order.
    Mixed,
    /// A hundred squares of 121 by 121 cells.
    Blocks,
    /// Each cell another one.
    Different,
}

/// What the words ask for.
#[derive(Clone, Copy)]
struct Task {
    count: u32,
    work: Work,
    values: Kind,
}

// The number of a cell.
fn number(kind: Kind, at: u32) -> u32 {
    match kind {
        Kind::Mixed => at.wrapping_mul(7919) % 1_500_007 % 1000,
        Kind::Blocks => at / SIDE / 121 * 10 + at % SIDE / 121 + 1,
        Kind::Different => at,
    }
}

// As many zones, which stand elsewhere.
fn zone(at: u32) -> u32 {
    at.wrapping_mul(104_729) % 1_500_007 / 7 % 1000
}

// A layer of cells that are made from their places.
fn layer<F: Fn(u32) -> u32>(alloc: Global, extent: Extent, number: F) -> Result<Layer, NoMemory>
    requires { F.IsAlwaysCallable number }
    ensures { IfOk result (λ layer. layer.size ≡ extent) }
{
    let mut cells = Vec::new(alloc);
    for at in 0..extent.cells() {
        let value = (number(at) % 2_000_000) as Value;
        cells.push(Cell::of(value).unwrap_or(Cell::null()))?;
    }
    if cells.len() != extent.cells() as usize {
        return Err(NoMemory);
    }
    Layer::from_cells(alloc, extent, &cells, 1)
}

// Symbols for a hundred values.
fn symbols(alloc: Global, name: &Name) -> Result<Marks, NoMemory> {
    let mut symbols = Marks::new(alloc);
    for value in 0..100_i64 {
        symbols.put(Mark {
            name: name.copy(alloc)?,
            value: value.wrapping_mul(7),
            text: Text::of(alloc, b"#")?,
        })?;
    }
    Ok(symbols)
}

/// What rounds print from.
#[derive(Drop)]
struct Scene {
    header: Header,
    name: Name,
    values: Layer,
    zones: Layer,
    none: Marks,
    symbols: Marks,
    ghost same: { zones.size ≡ values.size },
}

fn make_scene(alloc: Global, kind: Kind) -> Result<Scene, NoMemory> {
    let Some(extent) = Extent::new(SIDE, SIDE) else {
        return Err(NoMemory);
    };
    let Ok(name) = Name::plain(alloc, b"Values") else {
        return Err(NoMemory);
    };
    let Ok(grid) = read_grid(alloc, HEADER, 1) else {
        return Err(NoMemory);
    };
    let symbols = symbols(alloc, &name)?;
    Ok(Scene {
        header: grid.header,
        values: layer(alloc, extent, |at| number(kind, at))?,
        zones: layer(alloc, extent, zone)?,
        none: Marks::new(alloc),
        symbols,
        name,
    })
}

// The bytes that a round prints.
fn printed(alloc: Global, scene: &Scene, work: Work) -> Result<Vec<u8>, NoMemory> {
    let mut tally = Counts::new();
    let (name, values) = (&scene.name, &scene.values);
    match work {
        Work::Legend => print_legend(alloc, name, values, &scene.none, &scene.none, &mut tally),
        Work::Table => print_table(alloc, name, name, &scene.zones, values, &mut tally),
        Work::Show => print_show(alloc, name, values, &scene.none, &mut tally),
        Work::Symbols => print_show(alloc, name, values, &scene.symbols, &mut tally),
        Work::Grid => print_grid(alloc, &scene.header, values, &mut tally),
    }
}

// The sum of the bytes of a text.
fn sum(text: &[u8]) -> u64 {
    let mut sum: u64 = 0;
    for byte in text {
        sum = sum.wrapping_add(*byte as u64);
    }
    sum
}

// How many bytes the rounds print, and the sum of those of the last one.
fn counts(alloc: Global, scene: &Scene, task: Task) -> Result<(u64, u64), NoMemory> {
    let (mut bytes, mut last): (u64, u64) = (0, 0);
    for _ in 0..task.count {
        let text = printed(alloc, scene, task.work)?;
        bytes = bytes.wrapping_add(text.len() as u64);
        last = sum(&text);
    }
    Ok((bytes, last))
}

// What is told of the rounds.
fn rounds(alloc: Global, task: Task) -> Result<String, NoMemory> {
    let scene = make_scene(alloc, task.values)?;
    let (bytes, sum) = counts(alloc, &scene, task)?;
    Ok(format!(in alloc; "{bytes} {sum}")?)
}

/// What is told of so many rounds.
pub fn measure(alloc: Global, words: &[&str]) -> Option<String> {
    let work = match word_at(words, 1) {
        "table" => Work::Table,
        "show" => Work::Show,
        "symbols" => Work::Symbols,
        "grid" => Work::Grid,
        _ => Work::Legend,
    };
    let values = match word_at(words, 2) {
        "blocks" => Kind::Blocks,
        "different" => Kind::Different,
        _ => Kind::Mixed,
    };
    let task = Task {
        count: number_at(words, 0),
        work,
        values,
    };
    rounds(alloc, task).ok()
}
