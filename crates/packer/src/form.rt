// The packer: it sees that the packed form has room, and then stores it.
ghost use Rattle.std.specs.Prelude.{◌≡◌, ◌++◌, ◌+◌, ◌≤◌, leb, length, drop};
ghost use Rattle.laws.specs.Lists.{over};
ghost use Rattle.limits.specs.Limits.{plane_limit};
ghost use Rattle.packet.specs.Stream.{size_of, count_of};
ghost use Rattle.packer.specs.Packing.{stored_as, packed, left_by, packs};

use crate::PackError;
use crate::packets::{Packets, Piece};
use packet::Packet;

// The length of the packed form.
fn measure(packets: Packets) -> usize
    requires { length packets.rest.now ≤ plane_limit }
    ensures { result ≡ length (packed packets.entry.rest.now) }
{
    packets.map(|piece| piece.packet.size()).sum()
}

// A packet goes into the front of dest, as it is stored.
fn store(piece: Piece, dest: &mut [u8])
    requires whole { length piece.bytes.now ≡ count_of piece.packet }
    requires few { count_of piece.packet ≤ 127 }
    requires room { size_of piece.packet ≤ length dest.old }
    ensures { dest.new ≡ over dest.old 0 (stored_as piece.entry.packet piece.entry.bytes.now) }
{
    match piece.packet {
        Packet::Literals(n) => {
            dest[0] = n;
            dest[1..1 + piece.bytes.len()].copy_from_slice(piece.bytes);
        }
        Packet::Run(n, byte) => {
            dest[0] = 128 + n;
            dest[1] = byte;
        }
    }
}

// The packed form goes into the front of dest, and its length is returned.
fn store_all(packets: Packets, dest: &mut [u8]) -> usize
    requires { length (packed packets.rest.now) ≤ length dest.old }
    ensures r_value { result ≡ length (packed packets.entry.rest.now) }
    ensures dest_after { dest.new ≡ packed packets.entry.rest.now ++ drop (length (packed packets.entry.rest.now)) dest.old }
{
    let mut done = 0;
    for piece in packets {
        store(piece, &mut dest[done..]);
        done += piece.packet.size();
    }
    done
}

// Whether the packed form has room. Only where the longest form that so many bytes can have would not fit is it measured.
fn fits(packets: Packets, room: usize) -> bool
    requires { length packets.rest.now ≤ plane_limit }
    ensures { result ≡ leb (length (packed packets.entry.rest.now)) room }
{
    let n = packets.left();
    if n + (n + 126) / 127 <= room {
        return true;
    }
    measure(packets) <= room
}

// The packer. The packed form of the plane goes into the front of dest, which keeps the rest. 31: plane over the limit. 30: dest is
// shorter than the packed form. Both leave dest untouched.
pub fn pack(plane: &[u8], dest: &mut [u8]) -> Result<usize, PackError>
    ensures { left_by result dest.new ≡ packs plane.now dest.old }
{
    if limits::PLANE < plane.len() {
        return Err(PackError::OverLimit);
    }
    let packets = Packets::new(plane);
    if !fits(packets, dest.len()) {
        return Err(PackError::NoRoom);
    }
    Ok(store_all(packets, dest))
}
