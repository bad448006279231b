// What the rules remember from block to block, and what they know of a place by it: what holds a block, which blocks may stand there,
// what is still missing.

#![tactic(auto)]

mod codes;
mod parent;
mod places;
mod state;

pub use codes::{Codes, expected};
pub use parent::{MAIN, Open, Parent};
pub use places::{Placing, place};
pub use state::State;
