//! Plans: so many times one is made of 64 statements that read eight layers each.
//!
//! The first word is the number of rounds. With `row` for the second, each statement reads one source eight times; else
//! it reads the eight names before it. What is printed is the sum of the depths of all steps over all rounds.
//! `bench/plan` tells the time of a round from two such runs.

ghost use Rattle.std.specs.Prelude.{◌≡◌, ◌+◌, ◌<◌, ◌≤◌, length, IfSome};
ghost use Rattle.statement_graph.specs.Groups.{nodes_in};
ghost use Rattle.bench_texts.specs.Scenes.{IsFine};

use crate::scene::Scene;
use crate::words::{name_of, number_at, word_at};
use edit_plans::Planned;
use map_words::Name;
use std::alloc::Global;

const STATEMENTS: u32 = 64;

/// How many layers a statement reads.
const TERMS: u32 = 8;

/// What the statements read.
#[derive(Clone, Copy)]
enum Shape {
    Chain,
    Row,
}

// What a statement reads; where there are fewer names before it, the source's again.
fn reads_of(alloc: Global, shape: Shape, number: u32) -> Option<Vec<Name>>
    ensures { IfSome result (λ names. length names.items ≤ 8) }
{
    let mut names = Vec::new(alloc);
    for back in 0..TERMS {
        let read = match shape {
            Shape::Chain => number.saturating_sub(back + 1),
            Shape::Row => 0,
        };
        names.push(name_of(alloc, read)?).ok()?;
    }
    Some(names)
}

// The statement of a number.
fn add(scene: &mut Scene, alloc: Global, shape: Shape, number: u32) -> Option<()>
    requires fine { IsFine scene.old.graph scene.old.sources.keys scene.old.ops.entries }
    requires room { length (nodes_in scene.old.graph) < 1000 }
    ensures fine { IfSome result (λ _. IsFine scene.new.graph scene.new.sources.keys scene.new.ops.entries) }
    ensures one { IfSome result (λ _. length (nodes_in scene.new.graph) ≡ length (nodes_in scene.old.graph) + 1) }
{
    let name = name_of(alloc, number)?;
    let reads = reads_of(alloc, shape, number)?;
    scene.define(alloc, &name, reads)
}

// The source and all statements.
fn draw(scene: &mut Scene, alloc: Global, shape: Shape) -> Option<()>
    requires fine { IsFine scene.old.graph scene.old.sources.keys scene.old.ops.entries }
    requires none { length (nodes_in scene.old.graph) ≡ 0 }
    ensures fine { IfSome result (λ _. IsFine scene.new.graph scene.new.sources.keys scene.new.ops.entries) }
    ensures few { IfSome result (λ _. length (nodes_in scene.new.graph) ≤ 65) }
{
    scene.load(alloc, &name_of(alloc, 0)?)?;
    for number in 1..STATEMENTS + 1 {
        add(scene, alloc, shape, number)?;
    }
    Some(())
}

// The sum of the depths of all steps.
fn depths(planned: &Planned) -> u64 {
    let mut total: u64 = 0;
    for step in planned.steps.as_slice() {
        total = total.wrapping_add(step.depth as u64);
    }
    total
}

// So many rounds, and the sum of what they give.
fn rounds(scene: &mut Scene, alloc: Global, shape: Shape, count: u32) -> Option<u64>
    requires fine { IsFine scene.old.graph scene.old.sources.keys scene.old.ops.entries }
    requires none { length (nodes_in scene.old.graph) ≡ 0 }
{
    draw(scene, alloc, shape)?;
    let mut total: u64 = 0;
    for _round in 0..count {
        total = total.wrapping_add(depths(&scene.plan(alloc)?));
    }
    Some(total)
}

/// What so many rounds add up to.
pub fn measure(alloc: Global, words: &[&str]) -> Option<u64> {
    let shape = match word_at(words, 1) {
        "row" => Shape::Row,
        _ => Shape::Chain,
    };
    rounds(&mut Scene::new(alloc), alloc, shape, number_at(words, 0))
}
