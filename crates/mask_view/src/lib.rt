// What a caller may look at of selections and alpha channels without a table: the facts of the selection, the facts and the name of alpha
// channel k. They are sought, told and refused as a layer's are, and stand apart from those for the prover alone.

#![tactic(auto)]

mod at;
mod facts;
mod names;

pub use at::{alpha_at, alpha_name_at, selection_at};
pub use facts::{AlphaFacts, SelectionFacts, alpha_facts, selection_facts};
pub use names::{alpha_name, alpha_name_part};
