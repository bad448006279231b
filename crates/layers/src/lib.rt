// A judge for a layer, and one for the channels of layers, selections and alpha channels, in document 01's order of tests. They are apart from
// the other kinds for the prover alone: one crate of both takes twice as long to check.

#![tactic(auto)]

mod channel;
mod layer;

pub use channel::{channel_block, channel_entry};
pub use layer::layer_block;
