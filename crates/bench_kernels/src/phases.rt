//! Phases of jobs: so many phases of so many jobs by so many workers, each job a loop of so many steps.
//!
//! The words are the numbers of workers, of phases, of jobs and of steps. What is printed is the sum of all answers, without
//! the carry past 64 bits, so that two runs that differ in the workers can be compared. `bench/phases` tells the times from such
//! runs.

ghost use Rattle.std.specs.Prelude.{ℕ, ◌^◌, ◌<◌, ⊤};

use crate::maps::number_at;
use layer_tiles::Tally;
use map_nums::NoMemory;
use map_outside::Counts;
use std::alloc::Global;
use std::thread::Threads;
use tile_workers::{NoGate, Seat, Work, run_phase};

/// Jobs of so many steps each, which read nothing.
#[derive(Drop)]
struct Steps {
    jobs: u64,
    steps: u64,
}

impl Work for Steps {
    type Done = u64;

    ghost ready = { λ _. ⊤ };

    ghost jobs = { λ s. s.jobs };

    ghost looks = { λ s k. 0 };

    ghost picks = { λ s k. 0 };

    ghost answers = { λ s k d. d < 2 ^ 64 };

    fn job<M: Tally + Send>(&self, _seat: &Seat, ticket: u64, _tally: &mut M) -> u64 {
        let mut state = ticket;
        for _step in 0..self.steps {
            state = state
                .wrapping_mul(6_364_136_223_846_793_005)
                .wrapping_add(1_442_695_040_888_963_407);
        }
        state
    }
}

/// What is to be done.
#[derive(Drop)]
struct Task {
    workers: u32,
    phases: u32,
    jobs: u32,
    steps: u32,
}

// The sum of all answers of a phase.
fn phase<R: Threads + Sync>(rt: &R, alloc: Global, task: &Task) -> Result<u64, NoMemory> {
    let workers = task.workers.clamp(1, 64);
    let work = Steps {
        jobs: task.jobs as u64,
        steps: task.steps as u64,
    };
    let mut tally = Counts::new();
    let mut sum: u64 = 0;
    for answer in run_phase(rt, alloc, work.jobs, workers, &NoGate, &mut tally, &work)? {
        sum = sum.wrapping_add(answer);
    }
    Ok(sum)
}

// The sum of all answers of all phases.
fn phases<R: Threads + Sync>(rt: &R, alloc: Global, task: &Task) -> Result<u64, NoMemory> {
    let mut sum: u64 = 0;
    for _phase in 0..task.phases {
        sum = sum.wrapping_add(phase(rt, alloc, task)?);
    }
    Ok(sum)
}

/// The sum of all answers.
pub fn measure<R: Threads + Sync>(rt: &R, alloc: Global, words: &[&str]) -> Option<u64> {
    let task = Task {
        workers: number_at(words, 0),
        phases: number_at(words, 1),
        jobs: number_at(words, 2),
        steps: number_at(words, 3),
    };
    phases(rt, alloc, &task).ok()
}
