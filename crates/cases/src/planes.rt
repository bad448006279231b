// Cases of the plane reader, the packet reader and the packer. P: start, stored, plane, code, destination, input. U: plane, destination,
// stream. K: destination, plane. The destination held EE in each byte.
use crate::fields::{parts, refuse};
use crate::hash;
use packer::Packed;
use packet::Plane;
use std::io;
use std::io::Write;

// Bytes of the longest destination.
pub const DESTINATION: usize = 20000;

// What a destination held.
pub const HELD: u8 = 238;

fn line(out: &mut impl Write, kind: char, told: Plane, dest: &[u8]) -> io::Result<()> {
    let left = hash::of_bytes(dest);
    writeln!(
        out,
        "{kind} {} {} {} {left}",
        told.number, told.place, told.bytes
    )
}

pub fn plane(out: &mut impl Write, payload: &[u8]) -> io::Result<()> {
    let Some((numbers, input)) = parts(payload, 32) else {
        return refuse(out, 'P');
    };
    let mut held = [HELD; DESTINATION];
    let Some(dest) = held.get_mut(..endian::u32_at(numbers, 28) as usize) else {
        return refuse(out, 'P');
    };
    let start = endian::u64_at(numbers, 0) as usize;
    let stored = endian::u64_at(numbers, 8) as usize;
    let plane = endian::u64_at(numbers, 16) as usize;
    let code = endian::u32_at(numbers, 24);
    let told = Plane::from(reading::read_plane(input, start, stored, plane, code, dest));
    line(out, 'P', told, dest)
}

pub fn packets(out: &mut impl Write, payload: &[u8]) -> io::Result<()> {
    let Some((numbers, stream)) = parts(payload, 12) else {
        return refuse(out, 'U');
    };
    let mut held = [HELD; DESTINATION];
    let Some(dest) = held.get_mut(..endian::u32_at(numbers, 8) as usize) else {
        return refuse(out, 'U');
    };
    let plane = endian::u64_at(numbers, 0) as usize;
    let told = Plane::from(reading::unpack(stream, dest, plane));
    line(out, 'U', told, dest)
}

pub fn pack(out: &mut impl Write, payload: &[u8]) -> io::Result<()> {
    let Some((numbers, plane)) = parts(payload, 4) else {
        return refuse(out, 'K');
    };
    let mut held = [HELD; DESTINATION];
    let Some(dest) = held.get_mut(..endian::u32_at(numbers, 0) as usize) else {
        return refuse(out, 'K');
    };
    let told = Packed::from(packer::pack(plane, dest));
    writeln!(
        out,
        "K {} {} {}",
        told.number,
        told.length,
        hash::of_bytes(dest)
    )
}
