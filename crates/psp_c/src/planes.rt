// Planes for C: read from a stored channel or a stream of packets, and packed.
ghost use Rattle.std.specs.Prelude.{◌≡◌};
ghost use Rattle.packet.specs.Reading.{plane_read, unpacked};
ghost use Rattle.packer.specs.Packing.{packs};

use packer::Packed;
use packet::Plane;

// Reads the stored channel that is the part of the input from `start` for `stored` bytes. A refusal leaves dest untouched.
#[unsafe(no_mangle)]
pub extern "C" fn psp_read_plane(
    input: &[u8],
    start: usize,
    stored: usize,
    plane: usize,
    code: u32,
    dest: &mut [u8],
) -> Plane
    ensures { record { told = result; dest = dest.new } ≡ plane_read input.now start stored plane code dest.old }
{
    reading::read_plane(input, start, stored, plane, code, dest).into()
}

// Reads a stream of packets. A refusal leaves dest untouched.
#[unsafe(no_mangle)]
pub extern "C" fn psp_unpack(stream: &[u8], dest: &mut [u8], plane: usize) -> Plane
    ensures { record { told = result; dest = dest.new } ≡ unpacked stream.now plane dest.old }
{
    reading::unpack(stream, dest, plane).into()
}

// Packs a plane. A refusal leaves dest untouched, and no byte past the packed form changes.
#[unsafe(no_mangle)]
pub extern "C" fn psp_pack(plane: &[u8], dest: &mut [u8]) -> Packed
    ensures { record { told = result; dest = dest.new } ≡ packs plane.now dest.old }
{
    packer::pack(plane, dest).into()
}
