// Cases of the views of selections and alpha channels. S: room, input. A and M: room, alpha channel, input.
use crate::facts;
use crate::fields::{parts, refuse};
use crate::views::shown;
use std::io;
use std::io::Write;

pub fn selection_facts(out: &mut impl Write, payload: &[u8]) -> io::Result<()> {
    let Some((numbers, input)) = parts(payload, 4) else {
        return refuse(out, 'S');
    };
    let f = mask_view::selection_facts(input, endian::u32_at(numbers, 0) as usize);
    write!(out, "S {}", f.number)?;
    facts::mask(out, f.selection.mask)?;
    writeln!(out)
}

pub fn alpha_facts(out: &mut impl Write, payload: &[u8]) -> io::Result<()> {
    let Some((numbers, input)) = parts(payload, 8) else {
        return refuse(out, 'A');
    };
    let room = endian::u32_at(numbers, 0) as usize;
    let f = mask_view::alpha_facts(input, room, endian::u32_at(numbers, 4));
    write!(out, "A {}", f.number)?;
    facts::alpha(out, f.alpha)?;
    writeln!(out)
}

pub fn alpha_name(out: &mut impl Write, payload: &[u8]) -> io::Result<()> {
    let Some((numbers, input)) = parts(payload, 8) else {
        return refuse(out, 'M');
    };
    let room = endian::u32_at(numbers, 0) as usize;
    let k = endian::u32_at(numbers, 4);
    let p = mask_view::alpha_name_part(input, room, k);
    write!(out, "M {} {} {}", p.number, p.start, p.length)?;
    shown(out, mask_view::alpha_name(input, room, k))
}
