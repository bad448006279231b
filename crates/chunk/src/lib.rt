// The information chunks of palettes, layers, channels, selections, alpha banks and alpha channels (document 000), a file for each: its fields,
// its size, its decoding, and the rule of its fields (documents 01 and 02). The image's is in crate attributes.

#![tactic(auto)]

pub mod alpha_bank_information;
pub mod alpha_information;
pub mod area;
pub mod channel_information;
pub mod color_palette;
pub mod layer_information;
pub mod mask;
pub mod selection_information;
