// The plane reader.
ghost use Rattle.std.specs.Prelude.{◌≡◌};
ghost use Rattle.packet.specs.Reading.{left_by, plane_read};

use crate::packets::unpack;
use packet::{PlaneAnswer, PlaneError, Read};

// The plane reader. The stored channel is the part of the input from `start` for `stored` bytes, read there without a copy; code 0 is raw
// and code 1 run lengths. 24: no such code. 26: plane over the limit. 27: the stored part is not inside the input. 20: dest is shorter
// than the plane. 25: a raw length that is not the plane's. 21, 22, 23: as of `unpack`. Unless all is well, dest is untouched.
// Stays: (a) start and length of the part, not a slice of it: the export `psp_read_plane` has them so from C, and 27 is answered of them. So is the code:
// 24 is answered of any number that is not 0 or 1.
pub fn read_plane(
    input: &[u8],
    start: usize,
    stored: usize,
    plane: usize,
    code: u32,
    dest: &mut [u8],
) -> PlaneAnswer
    ensures { left_by result dest.new ≡ plane_read input.now start stored plane code dest.old }
{
    if 1 < code {
        return Err(PlaneError::UnknownCode);
    }
    if limits::PLANE < plane {
        return Err(PlaneError::OverLimit);
    }
    if input.len() < start {
        return Err(PlaneError::Outside);
    }
    if input.len() - start < stored {
        return Err(PlaneError::Outside);
    }
    if dest.len() < plane {
        return Err(PlaneError::NoRoom);
    }
    let channel = &input[start..start + stored];
    if code == 1 {
        return unpack(channel, dest, plane);
    }
    if stored != plane {
        return Err(PlaneError::RawLength);
    }
    dest[..plane].copy_from_slice(channel);
    Ok(Read { stored, plane })
}
