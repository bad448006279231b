// Answers cases of the library's calls, read from standard input: a kind byte, the payload's length as four bytes, the payload. Each case
// has one line: its kind, then the answer's numbers, then a hash of every buffer that the call could write.
#![tactic(auto)]

mod areas;
mod asked;
mod bitmaps;
mod facts;
mod fields;
mod hash;
mod listed;
mod places;
mod planes;
mod reader;
mod tables;
mod values;
mod views;

use printing::Held;
use std::io;

// Bytes of the longest payload: 300,000 blocks fit.
const SIZE: usize = 4194304;

fn main(rt: HostRuntime) -> io::Result<()> {
    let mut payload = [0u8; SIZE];
    reader::all(&mut rt.stdin(), &mut Held::new(&rt), &mut payload)
}
