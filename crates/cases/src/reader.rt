// Reads standard input case by case, to its end, and hands each payload to its kind.
use crate::fields::refuse;
use crate::{areas, bitmaps, listed, places, planes, tables, values, views};
use printing::read_full;
use std::io;
use std::io::{Read, Write};

// No input has so many cases.
const CASES: u64 = 1000000000000;

// Stays: (d) a match that calls a function each: a table of functions would have the same lines, and the letter twice.
fn answer(out: &mut impl Write, kind: u8, payload: &[u8]) -> io::Result<()> {
    match kind {
        b'L' => listed::listing(out, payload),
        b'T' => listed::count(out, payload),
        b'P' => planes::plane(out, payload),
        b'U' => planes::packets(out, payload),
        b'K' => planes::pack(out, payload),
        b'C' => bitmaps::canvas(out, payload),
        b'I' => values::intersection(out, payload),
        b'D' => values::dots(out, payload),
        b'V' => views::palette(out, payload),
        b'F' => views::image_facts(out, payload),
        b'Y' => views::layer_facts(out, payload),
        b'N' => views::layer_name(out, payload),
        b'S' => areas::selection_facts(out, payload),
        b'A' => areas::alpha_facts(out, payload),
        b'M' => areas::alpha_name(out, payload),
        b'H' => places::place(out, payload),
        b'W' => tables::write(out, payload),
        b'R' => tables::read(out, payload),
        _ => refuse(out, '?'),
    }
}

// Answers the next case, unless the input is at its end or the payload too long. Its line is written before another case is read.
fn next(input: &mut impl Read, out: &mut impl Write, buffer: &mut [u8]) -> io::Result<bool> {
    let mut head = [0; 5];
    if read_full(input, &mut head) < 5 {
        return Ok(false);
    }
    let length = endian::u32_at(&head, 1) as usize;
    let Some(payload) = buffer.get_mut(..length) else {
        return Ok(false);
    };
    if read_full(input, payload) < length {
        return Ok(false);
    }
    answer(out, head[0], payload)?;
    out.flush()?;
    Ok(true)
}

// The buffer's type says its length, which is not counted then.
pub fn all<const N: usize>(
    input: &mut impl Read,
    out: &mut impl Write,
    buffer: &mut [u8; N],
) -> io::Result<()> {
    for _ in 0..CASES {
        if !next(input, out, buffer)? {
            return Ok(());
        }
    }
    Ok(())
}
