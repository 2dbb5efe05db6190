//! Tests of what the public calls do that read names and lines, with values from other programs.
#![tactic(auto)]

#[cfg(test)]
mod all_rows;
#[cfg(test)]
mod languages;
#[cfg(test)]
mod lines;
#[cfg(test)]
mod names;
#[cfg(test)]
mod procedures;
#[cfg(test)]
mod texts;
