// The general image attributes chunk of document 000 and what its fields are made of: a bit depth, a resolution, the earliest field that is
// not permitted. Other chunks are judged by the same faults and depths.

#![tactic(auto)]

pub mod depth;
pub mod fault;
pub mod image_attributes;
pub mod resolution;
