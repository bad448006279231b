// The packer of run lengths (document 01, Packets): the packed form of a plane, which the packet reader reads back. The caller lends every
// buffer, and the packer knows that its form has room before it writes one byte. `pack` has no `requires`.

#![tactic(auto)]

mod equal;
mod form;
mod packets;
mod three;
mod told;

pub use form::pack;
pub use told::Packed;

// Why a plane is not packed; `refusal` gives each its number.
#[derive(Clone, Copy, Debug, PartialEq, Eq)]
pub enum PackError {
    // 30: the destination is shorter than the packed form
    NoRoom,
    // 31: a plane over the limit
    OverLimit,
}
