// The packets that are left, laid byte for byte.
ghost use Rattle.std.specs.Prelude.{◌≡◌, length, take};
ghost use Rattle.packet.specs.Stream.{bytes, join, meaning};
ghost use Rattle.packet.specs.Reading.{verdict};
ghost use Rattle.packet.specs.Standing.{ahead};

use packet::Stand;

// The packets that are left, each byte of theirs and no more.
pub(crate) fn write_rest(from: Stand, dest: &mut [u8])
    requires accepted { (verdict (length from.stream.now) from.plane (meaning from.stream.now from.plane)).number ≡ 0 }
    requires laid { (from.plane ≡ length dest.old) × (meaning from.stream.now from.plane ≡ join (take from.done dest.old) (ahead from)) }
    ensures { meaning from.entry.stream.now from.entry.plane ≡ bytes dest.new }
{
    let Stand { stream, .. } = from;
    let mut at = from.at;
    let mut done = from.done;
    // Stays: (d) each turn is as long as its packet: an iterator of packets would hold these same two places.
    while at < stream.len() {
        let count = usize::from(stream[at]);
        if count < 128 {
            let literals = &stream[at + 1..at + 1 + count];
            dest[done..done + count].copy_from_slice(literals);
            at += 1 + count;
            done += count;
        } else {
            let n = count - 128;
            dest[done..done + n].fill(stream[at + 1]);
            at += 2;
            done += n;
        }
    }
}
