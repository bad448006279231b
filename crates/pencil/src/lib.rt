// The listing by pencil (document 02, request x): what stands on the paper, what a turn makes of it, and the reply. specs/ says what the turns
// are and proofs/ where they lead; crate `asking` makes them.

#![tactic(auto)]

mod paper;

pub use paper::{Inside, Paper, Reply, Turn};
