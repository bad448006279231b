// The packets in front, where stream and plane have room for any packet: only the count 128 can be wrong there.
ghost use Rattle.packet.specs.Standing.{Onward};

use packet::Stand;

// Past the packets of 127 literals that stand one behind another, as in noise. A packet's place does not wait for the count before it here,
// so that the processor looks at many of them at once.
fn past_full(from: Stand) -> Stand
    ensures { Onward from.entry result }
{
    let last = from.stream.len().saturating_sub(127);
    let full = from.plane.saturating_sub(126);
    let mut at = from.at;
    let mut done = from.done;
    // Stays: (d) a turn is 128 bytes of the stream and 127 of the plane: an iterator of such turns would hold these same two places.
    while at < last && done < full && from.stream[at] == 127 {
        at += 128;
        done += 127;
    }
    from.moved(at, done)
}

// Past the packets at places from which 128 bytes of the stream and 127 of the plane are left, which no packet exceeds, up to a count of 128.
// Each kind has a branch of its own, so that a guess of the kind is all that the next place of a run waits for.
pub(crate) fn test_front(from: Stand) -> Stand
    ensures { Onward from.entry result }
{
    let last = from.stream.len().saturating_sub(127);
    let full = from.plane.saturating_sub(126);
    let mut at = from.at;
    let mut done = from.done;
    // Stays: (d) each turn is as long as its packet: an iterator of packets would hold these same two places.
    while at < last && done < full {
        let count = usize::from(from.stream[at]);
        if 128 < count {
            at += 2;
            done += count - 128;
        } else if count < 127 {
            at += 1 + count;
            done += count;
        } else {
            if count == 128 {
                break;
            }
            let past = past_full(from.moved(at + 128, done + 127));
            at = past.at;
            done = past.done;
        }
    }
    from.moved(at, done)
}
