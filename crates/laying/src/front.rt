// The packets in front, laid by blocks.
ghost use Rattle.std.specs.Prelude.{◌≡◌, ◌-◌, ◌≤◌, length, take, drop};
ghost use Rattle.packet.specs.Stream.{join, meaning};
ghost use Rattle.packet.specs.Reading.{verdict};
ghost use Rattle.packet.specs.Standing.{ahead};

use crate::blocks::{put_literals, put_run};
use packet::Stand;

// The packets at places from which 129 bytes of the stream, a count and the longest block, and 128 of the plane are left.
pub(crate) fn write_front<'a>(stream: &'a [u8], dest: &mut [u8]) -> Stand<'a>
    requires { (verdict (length stream.now) (length dest.old) (meaning stream.now (length dest.old))).number ≡ 0 }
    ensures { (result.stream.now ≡ stream.now) × (result.plane ≡ length dest.old) × (length dest.new ≡ length dest.old) × (meaning stream.now (length dest.old) ≡ join (take result.done dest.new) (ahead result)) }
{
    let last = stream.len().saturating_sub(128);
    let full = dest.len().saturating_sub(127);
    let from = Stand::first(stream, dest.len());
    let mut at = from.at;
    let mut done = from.done;
    // Stays: (d) each turn is as long as its packet: an iterator of packets would hold these same two places.
    while at < last && done < full {
        let count = usize::from(stream[at]);
        if count < 128 {
            put_literals(&stream[at + 1..], count, &mut dest[done..]);
            at += 1 + count;
            done += count;
        } else {
            put_run(stream[at + 1], count - 128, &mut dest[done..]);
            at += 2;
            done += count - 128;
        }
    }
    from.moved(at, done)
}
