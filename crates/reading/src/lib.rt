// The packet reader and the plane reader (document 01, Packets and Answer numbers). The caller lends every buffer, and a reader tests all
// before it writes one byte. No reader has a `requires`.

#![tactic(auto)]

mod packets;
mod plane;

pub use packets::unpack;
pub use plane::read_plane;
