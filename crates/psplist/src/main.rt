// The listing program of document 01: standard input, listed. One byte more than the program's input shows that there is more; a read
// that fails counts as the end, and a write that fails ends the program.
#![tactic(auto)]

mod lines;

use printing::{Held, read_full};
use std::io;
use std::io::Write;

fn main(rt: HostRuntime) -> io::Result<()> {
    let mut input = [0u8; lines::INPUT + 1];
    let n = read_full(&mut rt.stdin(), &mut input);
    let mut out = Held::new(&rt);
    lines::show(&mut out, &input[..n])?;
    out.flush()
}
