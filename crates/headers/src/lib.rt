// How a file and a block begin: the headers of document 000, a file for each, with its fields, its size, its decoding and its tests (document
// 01); the kinds of blocks; and what headers and chunks have alike, which is fields at offsets.

#![tactic(auto)]

pub mod block_header;
pub mod fields;
pub mod file_header;
pub mod kind;
