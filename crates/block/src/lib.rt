// One look at one place of a file: what stands there, in document 01's order of tests. Nothing here walks; the crate `listing` does.

#![tactic(auto)]

mod header;
mod looking;

pub use header::{block, lengths};
pub use looking::{Edge, edge_at, look};
