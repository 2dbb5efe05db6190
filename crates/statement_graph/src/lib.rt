//! Names in order of place, and what each lacks.
//!
//! A [`Graph`] holds the names of sources and of flat statements, each [`Node`] with the names that it needs. It says
//! how deep a name stands, which name it lacks first, and which flat statements there are by depth.
#![tactic(auto)]

mod graph;
mod links;
mod node;
mod ordering;
mod places;
mod refusal;
mod row;
mod splice;

pub use graph::Graph;
pub use node::Node;
pub use refusal::GraphRefusal;
