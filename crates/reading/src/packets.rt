// The packet reader: a first pass tests the whole stream, and a second writes the plane.
ghost use Rattle.std.specs.Prelude.{◌≡◌};
ghost use Rattle.packet.specs.Reading.{left_by, unpacked};

use judging::test;
use laying::write;
use packet::{PlaneAnswer, PlaneError};

// The packet reader. A stream of packets goes into the first `plane` bytes of dest, which keeps the rest. 20: dest is shorter
// than the plane. 21: count 128. 22: packet data missing. 23: more than the plane has left. Unless all is well, dest is untouched.
pub fn unpack(stream: &[u8], dest: &mut [u8], plane: usize) -> PlaneAnswer
    ensures { left_by result dest.new ≡ unpacked stream.now plane dest.old }
{
    if dest.len() < plane {
        return Err(PlaneError::NoRoom);
    }
    let read = test(stream, plane)?;
    write(stream, &mut dest[..plane]);
    Ok(read)
}
