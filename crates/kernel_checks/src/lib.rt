//! Tests of the public calls of layers and kernels, with values from other programs.
//!
//! Each module has one subject. Tests of lines stand in `line_checks`, of the engine in `engine_checks`, of sessions and whole runs in
//! `map_checks`.
#![tactic(auto)]

#[cfg(test)]
mod arithmetic;
#[cfg(test)]
mod damage;
#[cfg(test)]
mod drainage;
#[cfg(test)]
mod focal_operations;
#[cfg(test)]
mod incremental_operations;
#[cfg(test)]
mod layers;
#[cfg(test)]
mod local_operations;
#[cfg(test)]
mod makers;
#[cfg(test)]
mod neighbors;
#[cfg(test)]
mod neighbourhoods;
#[cfg(test)]
mod regions;
#[cfg(test)]
mod sight;
#[cfg(test)]
mod spreading;
#[cfg(test)]
mod statistics;
#[cfg(test)]
mod tallies;
#[cfg(test)]
mod zones;
