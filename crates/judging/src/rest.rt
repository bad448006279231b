// The packets that are left, with every test.
ghost use Rattle.std.specs.Prelude.{◌≡◌};
ghost use Rattle.packet.specs.Reading.{paper};
ghost use Rattle.packet.specs.Standing.{ahead_told};

use packet::{PlaneAnswer, PlaneError, Read, Stand};

// The answer of what is left of the stream, each packet tested in document 01's order.
pub(crate) fn test_rest(from: Stand) -> PlaneAnswer
    ensures { paper result ≡ ahead_told from.entry }
{
    let Stand { stream, plane, .. } = from;
    let mut at = from.at;
    let mut done = from.done;
    // Stays: (d) each turn is as long as its packet: an iterator of packets would hold these same two places.
    while at < stream.len() {
        let left = plane - done;
        if left == 0 {
            return Err(PlaneError::TooMuch { place: at });
        }
        let count = usize::from(stream[at]);
        if count == 128 {
            return Err(PlaneError::Count128 { place: at });
        }
        let rest = stream.len() - (at + 1);
        if count < 128 {
            if rest < count {
                return Err(PlaneError::Missing { place: at });
            }
            if left < count {
                return Err(PlaneError::TooMuch { place: at });
            }
            at += 1 + count;
            done += count;
        } else {
            if rest == 0 {
                return Err(PlaneError::Missing { place: at });
            }
            if left < count - 128 {
                return Err(PlaneError::TooMuch { place: at });
            }
            at += 2;
            done += count - 128;
        }
    }
    if done < plane {
        return Err(PlaneError::Missing { place: at });
    }
    Ok(Read {
        stored: stream.len(),
        plane,
    })
}
