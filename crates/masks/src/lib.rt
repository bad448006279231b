// A judge for a selection, for the alpha bank and for the alpha channels inside it (document 02, request vii). The channel that a selection and
// an alpha channel hold is judged by crate `layers`, as a layer's is.

#![tactic(auto)]

mod alpha;
mod alpha_bank;
mod selection;

pub use alpha::alpha_block;
pub use alpha_bank::alpha_bank_block;
pub use selection::selection_block;
