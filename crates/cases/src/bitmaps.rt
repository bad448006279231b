// Cases of a plane placed on a canvas. C: width, height, rectangle, row, canvas, plane.
ghost use Rattle.std.specs.Prelude.{◌≡◌, ◌≤◌, length, IfSome};

use crate::fields::{parts, refuse};
use crate::hash;
use rect::Rect;
use std::io;
use std::io::Write;

// Bytes of the largest canvas.
const CANVAS: usize = 65600;

fn place(out: &mut impl Write, numbers: &[u8], canvas: &[u8], plane: &[u8]) -> io::Result<()>
    requires { 28 ≤ length numbers.now }
{
    let mut copied = [0; CANVAS];
    let Some(pixels) = copied.get_mut(..canvas.len()) else {
        return refuse(out, 'C');
    };
    pixels.copy_from_slice(canvas);
    let width = endian::u32_at(numbers, 0);
    let height = endian::u32_at(numbers, 4);
    let r = Rect::decode(numbers, 8);
    let a = canvas::place(width, height, pixels, r, plane, endian::u32_at(numbers, 24));
    writeln!(out, "C {} {}", canvas::number(a), hash::of_bytes(pixels))
}

// Two byte strings: the canvas, behind the numbers, and the plane.
fn parted(payload: &[u8]) -> Option<(&[u8], &[u8], &[u8])>
    ensures { IfSome result (λ parts. length parts.0.now ≡ 28) }
{
    let (numbers, rest) = payload.split_at_checked(28)?;
    let (said, rest) = rest.split_at_checked(4)?;
    let (canvas, plane) = parts(rest, endian::u32_at(said, 0) as usize)?;
    Some((numbers, canvas, plane))
}

pub fn canvas(out: &mut impl Write, payload: &[u8]) -> io::Result<()> {
    match parted(payload) {
        Some((numbers, canvas, plane)) => place(out, numbers, canvas, plane),
        None => refuse(out, 'C'),
    }
}
