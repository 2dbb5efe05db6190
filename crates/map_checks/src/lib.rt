//! Tests of what the public calls of grids' texts, graphs, sessions, the outside and whole runs do, with values from other programs.
//!
//! Those of lines stand in `line_checks`, of the engine in `engine_checks`, of layers and kernels in `kernel_checks`.
#![tactic(auto)]

#[cfg(test)]
mod gates;
#[cfg(test)]
mod graphs;
#[cfg(test)]
mod grids;
#[cfg(test)]
mod plays;
#[cfg(test)]
mod refused_grids;
#[cfg(test)]
mod runs;
#[cfg(test)]
mod sessions;
#[cfg(test)]
mod shelves_and_sinks;
#[cfg(test)]
mod steady_forms;
#[cfg(test)]
mod taken_whole;
#[cfg(test)]
mod tried;
#[cfg(test)]
mod undone;
