// The second pass over a stream of packets, which the first (crate judging) has accepted: its plane is written into a slice that is the plane
// and nothing more. In front, where stream and plane have room behind a packet, by whole blocks; behind that byte for byte.

#![tactic(auto)]

mod blocks;
mod front;
mod rest;

ghost use Rattle.std.specs.Prelude.{◌≡◌, length};
ghost use Rattle.packet.specs.Stream.{bytes, meaning};
ghost use Rattle.packet.specs.Reading.{verdict};

use front::write_front;
use rest::write_rest;

// The whole plane.
pub fn write(stream: &[u8], dest: &mut [u8])
    requires { (verdict (length stream.now) (length dest.old) (meaning stream.now (length dest.old))).number ≡ 0 }
    ensures { meaning stream.now (length dest.old) ≡ bytes dest.new }
{
    let from = write_front(stream, dest);
    write_rest(from, dest);
}
