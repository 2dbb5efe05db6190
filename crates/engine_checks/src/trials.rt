//! An engine on trial: what it answers to lines, and what is seen of its layers.
ghost use Rattle.std.specs.Prelude.{◌≤◌, IfSome};
ghost use Rattle.statement_parser.specs.Formed.{IsEdit};
ghost use Rattle.statement_parser.specs.Views.{edit_view};
ghost use Rattle.live_engine.specs.Accepts.{IsFormedEdit};

use layer_tiles::{Cell, Extent, Layer, Value};
use live_engine::{Accepted, Edit, Engine, Entry, Refusal, Which};
use map_lines::parse_line;
use map_outside::Counts;
use map_words::Name;
use statement_parser::{Language, Line, LineEdit, Place};
use std::alloc::Global;
use std::mem::forget;
use std::process::Abort;
use std::test::Fail;
use std::thread::Threads;
use tile_workers::NoGate;

/// An answer without the names in it.
#[derive(Clone, Copy, Debug, PartialEq, Eq)]
pub enum Said {
    /// The number; and how many tiles changed, how many were evaluated, and the work.
    Accepted(u64, [u64; 3]),
    Unknown,
    Derived,
    Exists,
    Size(u64, u64),
    Limit(Which),
    Cycle,
    Viewers(u64),
    Overflow(u64, u64),
    NoProcedure,
    Terms(u64, u64),
    NoMemory,
}

pub fn told(answer: &Result<Accepted, Refusal>) -> Said {
    match answer {
        Ok(Accepted { number, counts }) => {
            Said::Accepted(*number, [counts.changed, counts.evaluated, counts.worked])
        }
        Err(Refusal::Unknown(_)) => Said::Unknown,
        Err(Refusal::Derived(_)) => Said::Derived,
        Err(Refusal::Exists(_)) => Said::Exists,
        Err(Refusal::Size(rows, columns)) => Said::Size(*rows, *columns),
        Err(Refusal::Limit(which)) => Said::Limit(*which),
        Err(Refusal::Cycle(_)) => Said::Cycle,
        Err(Refusal::Viewers(_, count)) => Said::Viewers(*count),
        Err(Refusal::Overflow(_, row, column)) => Said::Overflow(*row, *column),
        Err(Refusal::NoProcedure(_)) => Said::NoProcedure,
        Err(Refusal::Terms(given, wanted)) => Said::Terms(*given, *wanted),
        Err(Refusal::NoMemory) => Said::NoMemory,
    }
}

/// What was said to an edit, and what it read.
#[derive(Clone, Copy)]
struct Answer {
    said: Said,
    looks: u64,
    picks: u64,
}

fn edit_of(alloc: Global, line: &[u8]) -> Option<LineEdit>
    ensures { IfSome result (λ e. IsEdit (edit_view e)) }
{
    let place = Place {
        language: Language::One,
        early: true,
    };
    match parse_line(alloc, line, place) {
        Ok(Line::Edit(edit)) => Some(edit),
        _ => None,
    }
}

/// A plain name or a dotted one.
fn named(alloc: Global, text: &[u8]) -> Option<Name> {
    match Name::plain(alloc, text) {
        Ok(name) => Some(name),
        Err(_) => Name::dotted(alloc, text).ok(),
    }
}

/// A load of a layer of this value in each cell.
fn load_of(alloc: Global, extent: Extent, name: &[u8], value: Value) -> Option<Edit>
    ensures { IfSome result IsFormedEdit }
{
    let name = Name::plain(alloc, name).ok()?;
    let cell = Cell::of(value)?;
    let layer = Layer::constant(alloc, extent, cell, 7).ok()?;
    Some(Edit::Load { name, layer })
}

/// A cell of a layer; none where it is null or the layer has no such cell.
fn cell_of(layer: &Layer, at: u32) -> Option<Value> {
    if at < layer.extent().cells() {
        return layer.cell(at, &mut Counts::new()).get();
    }
    None
}

fn stamps_of(alloc: Global, layer: &Layer) -> Result<Vec<u64>, Fail> {
    let mut stamps = Vec::new(alloc);
    for tile in 0..layer.extent().tiles() {
        stamps.push(layer.stamp(tile))?;
    }
    Ok(stamps)
}

/// What stands at a place of the list of names.
#[derive(Clone, Copy, Debug, PartialEq, Eq)]
pub enum Stands {
    Source,
    Statement,
    Nothing,
}

/// What is tried, one after another.
#[derive(Clone, Copy)]
pub enum Step<'a> {
    /// A layer of this value in each cell is loaded, and all its tiles change.
    Loads(&'a str, Value),
    /// A load of a layer of so many rows and columns is refused for this.
    RefusesLoad(&'a str, u32, u32, Said),
    /// A line is accepted as the next edit, with so many tiles that changed and that were evaluated, and without work.
    Takes(&'a str, u64, u64),
    /// A line is accepted with so many tiles that changed and that were evaluated, at most so many looks, and no picks.
    Reads(&'a str, u64, u64, u64),
    /// So many lines with the numbers from 0 on between these texts are accepted, each with so many tiles, all changed and evaluated.
    TakesEach(&'a str, &'a str, u8, u64),
    /// A line is refused for this.
    Refuses(&'a str, Said),
    /// A layer has this value at this place, row by row from 0.
    Shows(&'a str, u32, Value),
    /// A name has no layer, since it lacks this name, which is its own where it isn't there.
    Lacks(&'a str, &'a str),
    /// A layer has these stamps.
    Stamps(&'a str, &'a [u64]),
    /// So many edits were accepted.
    Number(u64),
    /// This stands at a place of the list of names.
    Names(u32, Stands),
    /// There are so many procedures.
    Procedures(u32),
    /// There are so many labels and so many symbols.
    Marks(usize, usize),
}

/// An engine on trial, how many workers it has, and how many edits it has to have accepted.
#[derive(Drop)]
struct Trial<'a, R> {
    rt: &'a R,
    engine: Engine,
    workers: u32,
    accepted: u64,
    ghost some: { 1 ≤ workers },
    ghost most: { workers ≤ 64 },
}

impl<'a, R: AllocGlobal + Abort + Threads + Sync> Trial<'a, R> {
    fn edit(&mut self, edit: Edit) -> Answer
        requires { IsFormedEdit edit }
    {
        let mut tally = Counts::new();
        let answer = self.engine.edit(
            self.rt,
            self.rt.alloc(),
            edit,
            self.workers,
            &NoGate,
            &mut tally,
        );
        Answer {
            said: told(&answer),
            looks: tally.looks(),
            picks: tally.picks(),
        }
    }

    fn line(&mut self, text: &str) -> Result<Answer, Fail> {
        let edit = edit_of(self.rt.alloc(), text.as_bytes()).ok_or("no edit")?;
        Ok(self.edit(Edit::Line(edit)))
    }

    fn says(&mut self, text: &str, want: Said) -> Result<(), Fail> {
        let answer = self.line(text)?;
        assert_eq!(self.rt; answer.said, want, "{text}");
        self.count(want);
        Ok(())
    }

    fn next(&self) -> u64 {
        self.accepted.saturating_add(1)
    }

    fn count(&mut self, said: Said) {
        if let Said::Accepted(number, _) = said {
            self.accepted = number;
        }
    }

    fn takes(&mut self, text: &str, changed: u64, evaluated: u64) -> Result<(), Fail> {
        let number = self.next();
        self.says(text, Said::Accepted(number, [changed, evaluated, 0]))
    }

    fn reads(&mut self, text: &str, changed: u64, evaluated: u64, looks: u64) -> Result<(), Fail> {
        let number = self.next();
        let answer = self.line(text)?;
        assert_eq!(self.rt;
            answer.said,
            Said::Accepted(number, [changed, evaluated, 0])
        );
        assert!(self.rt; answer.looks <= looks);
        assert_eq!(self.rt; answer.picks, 0);
        self.accepted = number;
        Ok(())
    }

    fn says_to_load(
        &mut self,
        name: &str,
        extent: Extent,
        value: Value,
        want: Said,
    ) -> Result<(), Fail> {
        let edit = load_of(self.rt.alloc(), extent, name.as_bytes(), value).ok_or("no layer")?;
        let answer = self.edit(edit);
        assert_eq!(self.rt; answer.said, want, "{name}");
        self.count(want);
        Ok(())
    }

    fn loads(&mut self, name: &str, value: Value) -> Result<(), Fail> {
        let extent = self.engine.extent();
        let tiles = u64::from(extent.tiles());
        let number = self.next();
        self.says_to_load(
            name,
            extent,
            value,
            Said::Accepted(number, [tiles, tiles, 0]),
        )
    }

    fn refuses_load(
        &mut self,
        name: &str,
        rows: u32,
        columns: u32,
        cause: Said,
    ) -> Result<(), Fail> {
        let extent = Extent::new(rows, columns).ok_or("limits")?;
        self.says_to_load(name, extent, 1, cause)
    }

    fn layer(&self, name: &str) -> Result<&Layer, Fail> {
        let name = named(self.rt.alloc(), name.as_bytes()).ok_or("no name")?;
        Ok(self.engine.layer(&name).ok().ok_or("no layer")?)
    }

    fn shows(&self, name: &str, at: u32, want: Option<Value>) -> Result<(), Fail> {
        let value = cell_of(self.layer(name)?, at);
        assert_eq!(self.rt; value, want, "{name} {at}");
        Ok(())
    }

    fn lacks(&self, name: &str, want: &str) -> Result<(), Fail> {
        let alloc = self.rt.alloc();
        let name = named(alloc, name.as_bytes()).ok_or("no name")?;
        let missing = self.engine.layer(&name).err().ok_or("a layer")?;
        let lacking = missing.name.unwrap_or(&name);
        assert_eq!(self.rt; lacking.bytes(), want.as_bytes());
        Ok(())
    }

    fn has_stamps(&self, name: &str, want: &[u64]) -> Result<(), Fail> {
        let stamps = stamps_of(self.rt.alloc(), self.layer(name)?)?;
        assert_eq!(self.rt; stamps.as_slice(), want, "{name}");
        Ok(())
    }

    fn has_number(&self, want: u64) -> Result<(), Fail> {
        assert_eq!(self.rt; self.engine.number(), want);
        Ok(())
    }

    fn has_name(&self, place: u32, want: Stands) -> Result<(), Fail> {
        let stands = match self.engine.entry(place) {
            Some(Entry::Source(_)) => Stands::Source,
            Some(Entry::Statement(_, _)) => Stands::Statement,
            None => Stands::Nothing,
        };
        assert_eq!(self.rt; stands, want);
        Ok(())
    }

    fn has_procedures(&self, count: u32) -> Result<(), Fail> {
        for place in 0..count {
            assert!(self.rt; self.engine.procedure(place).is_some());
        }
        assert!(self.rt; self.engine.procedure(count).is_none());
        Ok(())
    }

    fn has_marks(&self, labels: usize, symbols: usize) -> Result<(), Fail> {
        assert_eq!(self.rt; self.engine.labels().count(), labels);
        assert_eq!(self.rt; self.engine.symbols().count(), symbols);
        Ok(())
    }

    fn takes_each(&mut self, before: &str, after: &str, count: u8, tiles: u64) -> Result<(), Fail> {
        for k in 0..count {
            let text = format!(in self.rt.alloc(); "{before}{k}{after}")?;
            self.takes(&text, tiles, tiles)?;
        }
        Ok(())
    }

    fn does(&mut self, step: Step<'_>) -> Result<(), Fail> {
        match step {
            Step::Loads(name, value) => self.loads(name, value),
            Step::RefusesLoad(name, rows, columns, cause) => {
                self.refuses_load(name, rows, columns, cause)
            }
            Step::Takes(text, changed, evaluated) => self.takes(text, changed, evaluated),
            Step::Reads(text, changed, evaluated, looks) => {
                self.reads(text, changed, evaluated, looks)
            }
            Step::TakesEach(before, after, count, tiles) => {
                self.takes_each(before, after, count, tiles)
            }
            Step::Refuses(text, cause) => self.says(text, cause),
            _ => self.seen(step),
        }
    }

    /// What is seen of the engine is so.
    fn seen(&self, step: Step<'_>) -> Result<(), Fail> {
        match step {
            Step::Shows(name, at, value) => self.shows(name, at, Some(value)),
            Step::Lacks(name, lacking) => self.lacks(name, lacking),
            Step::Stamps(name, stamps) => self.has_stamps(name, stamps),
            Step::Number(number) => self.has_number(number),
            Step::Names(place, stands) => self.has_name(place, stands),
            Step::Procedures(count) => self.has_procedures(count),
            Step::Marks(labels, symbols) => self.has_marks(labels, symbols),
            _ => Err(Fail::from("a step that tries nothing")),
        }
    }

    fn plays(&mut self, steps: &[Step<'_>]) -> Result<(), Fail> {
        for step in steps {
            self.does(*step)?;
        }
        Ok(())
    }
}

/// An engine without names, with so many workers, over a map of so many rows and columns: all of this is so, one after another.
pub fn tried<R: AllocGlobal + Abort + Threads + Sync>(
    rt: &R,
    rows: u32,
    columns: u32,
    workers: u32,
    steps: &[Step<'_>],
) -> Result<(), Fail>
    requires some { 1 ≤ workers }
    requires most { workers ≤ 64 }
{
    let extent = Extent::new(rows, columns).ok_or("limits")?;
    let mut trial = Trial {
        rt,
        engine: Engine::new(rt.alloc(), extent),
        workers,
        accepted: 0,
    };
    let said = trial.plays(steps);
    // The test ends here: that the engine goes piece by piece would have to be proved too, in minutes.
    forget(trial);
    said
}
