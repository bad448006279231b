// Packets of run lengths (document 01, Packets): what they are made of and what reading them answers, which the two passes of reading (crates
// judging and laying), the readers (crate reading) and the packer (crate packer) share.

#![tactic(auto)]

mod answer;
mod packets;
mod stand;
mod told;

pub use answer::{PlaneAnswer, PlaneError, Read};
pub use stand::Stand;
pub use told::Plane;

// So many literal bytes, or a byte that is repeated so many times.
#[derive(Clone, Copy)]
pub enum Packet {
    Literals(u8),
    Run(u8, u8),
}
