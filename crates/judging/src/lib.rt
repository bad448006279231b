// The first pass over a stream of packets: what its packets come to, with nothing written. In front, where stream and plane have room for any
// packet, most tests are passed over; behind that every test is made.
// Stays: (b) two loops, here and in crate laying: one loop that makes every test is below seven tenths of the decoder's speed (request xiii).

#![tactic(auto)]

mod front;
mod rest;

ghost use Rattle.std.specs.Prelude.{◌≡◌, length};
ghost use Rattle.packet.specs.Stream.{meaning};
ghost use Rattle.packet.specs.Reading.{paper, verdict};

use front::test_front;
use packet::{PlaneAnswer, Stand};
use rest::test_rest;

// The answer of the whole stream.
pub fn test(stream: &[u8], plane: usize) -> PlaneAnswer
    ensures { paper result ≡ verdict (length stream.now) plane (meaning stream.now plane) }
{
    test_rest(test_front(Stand::first(stream, plane)))
}
