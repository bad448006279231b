// A judge for each kind of block that the main level holds, and for one that is skipped: what stands behind a header that has passed, in
// document 01's order of tests. The kinds inside the bank are the crate `layers`; which kind may stand where, the crate `block` knows.

#![tactic(auto)]

mod answers;
mod bank;
mod here;
mod image;
mod palette;
mod skip;

pub use answers::{Step, Stop, entry_block, filled_entry, ranked_entry, wrong_field};
pub use bank::bank_block;
pub use here::Here;
pub use image::image_block;
pub use palette::palette_block;
pub use skip::skip_block;
