// What the programs read and print with, in one place: a writer without an allocator, a full read, and bytes after a space each.
#![tactic(auto)]

mod held;
mod input;

ghost use Rattle.std.specs.Prelude.{OnOk, flat_map};
ghost use Rattle.std.specs.Io.KnownBytes.{Appends};
ghost use Rattle.printing.specs.Printed.{printed_byte};

pub use held::Held;
pub use input::read_full;
use std::io;
use std::io::Write;

// A byte in hexadecimal.
#[tactic(auto, using(std::proofs::lemmas::Fmt::hex_byte))]
pub fn byte<W: Write>(out: &mut W, b: u8) -> io::Result<()>
    ensures { OnOk result (Appends (W.contents out.old) (W.contents out.new) (printed_byte b)) }
{
    write!(out, " {b:02x}")
}

pub fn bytes<W: Write>(out: &mut W, s: &[u8]) -> io::Result<()>
    ensures { OnOk result (Appends (W.contents out.old) (W.contents out.new) (flat_map printed_byte s.now)) }
{
    for b in s {
        byte(out, *b)?;
    }
    Ok(())
}
