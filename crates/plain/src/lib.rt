// Plain blocks: whole, and good by tests that ask no more than they must. A walk passes them without a look: runs of skipped blocks, and a
// layer of the bank with its channels. Nothing here refuses: what is not plain is left where it stands, and `block::look` judges it from
// its header on. So every refusal, its order and its place are the rule's.
// Stays: (b) beside the rule, whose tests these are: by looks alone a listing takes some five times as long.

#![tactic(auto)]

mod channels;
mod layer;
mod skipped;
mod stretch;

pub use layer::{Layered, held, in_bank, layer_entry};
pub use skipped::skips;
pub use stretch::{Passed, Stretch};
