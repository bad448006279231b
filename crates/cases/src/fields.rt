// What every kind shares in reading its payload: numbers at its front, and behind them a byte string, which is its length as four bytes, then
// its bytes to the payload's end.
ghost use Rattle.std.specs.Prelude.{◌≡◌, length, IfSome};

use std::io;
use std::io::Write;

// The line of a payload that does not fit its kind.
pub fn refuse(out: &mut impl Write, kind: char) -> io::Result<()> {
    writeln!(out, "{kind} !")
}

// The front of a payload, so many bytes, and the byte string behind it.
pub fn parts(payload: &[u8], front: usize) -> Option<(&[u8], &[u8])>
    ensures { IfSome result (λ parts. length parts.0.now ≡ front) }
{
    let (numbers, rest) = payload.split_at_checked(front)?;
    let (said, string) = rest.split_at_checked(4)?;
    if endian::u32_at(said, 0) as usize == string.len() {
        Some((numbers, string))
    } else {
        None
    }
}
