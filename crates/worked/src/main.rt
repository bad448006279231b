// The worked value of document 01 that is run and not proved (crate worked_rows has the others): a plane of two pixels, of which the canvas
// has the right one. A line is what was asked, the answer's number, and the whole canvas, which held EE before.
#![tactic(auto)]

use printing::{Held, bytes};
use rect::Rect;
use std::io;
use std::io::Write;

fn place(
    out: &mut impl Write,
    asked: &str,
    width: u32,
    height: u32,
    r: Rect,
    plane: &[u8],
    row: u32,
) -> io::Result<()> {
    let mut canvas = [238; 6];
    let answer = canvas::place(width, height, &mut canvas, r, plane, row);
    write!(out, "{asked} {} |", canvas::number(answer))?;
    bytes(out, &canvas)?;
    writeln!(out)
}

fn main(rt: HostRuntime) -> io::Result<()> {
    let mut out = Held::new(&rt);
    let r = Rect {
        left: -1,
        top: 1,
        right: 1,
        bottom: 2,
    };
    place(
        &mut out,
        "3 by 2, 10 11 00 00 at (-1,1)-(1,2):",
        3,
        2,
        r,
        b"\x10\x11\x00\x00",
        4,
    )?;
    out.flush()
}
