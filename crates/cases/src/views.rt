// Cases of the views. V: room, ramp, input. F: room, input. Y and N: room, layer, input. A ramp is so many bytes EE. A part of a slice is
// shown in numbers, and then by itself, with its number and a hash.
use crate::fields::{parts, refuse};
use crate::{facts, hash};
use std::io;
use std::io::Write;
use view::NotShown;

// The longest ramp.
const RAMP: usize = 2048;

// A slice that is shown, or nothing beside the number of a refusal.
pub fn shown(out: &mut impl Write, shown: Result<&[u8], NotShown>) -> io::Result<()> {
    match shown {
        Ok(part) => writeln!(out, " 0 {}", hash::of_bytes(part)),
        Err(not_shown) => writeln!(out, " {} {}", u32::from(not_shown), hash::START),
    }
}

// Two slices that are lent alike.
fn palette_of(out: &mut impl Write, input: &[u8], room: usize, ramp: &[u8]) -> io::Result<()> {
    let p = view::palette_part(input, room, ramp.len());
    write!(out, "V {} {} {} {}", p.number, p.which, p.start, p.length)?;
    shown(out, view::palette(input, room, ramp))
}

pub fn palette(out: &mut impl Write, payload: &[u8]) -> io::Result<()> {
    let Some((numbers, input)) = parts(payload, 8) else {
        return refuse(out, 'V');
    };
    let room = endian::u32_at(numbers, 0) as usize;
    let bytes = [238; RAMP];
    match bytes.get(..endian::u32_at(numbers, 4) as usize) {
        Some(ramp) => palette_of(out, input, room, ramp),
        None => refuse(out, 'V'),
    }
}

pub fn image_facts(out: &mut impl Write, payload: &[u8]) -> io::Result<()> {
    let Some((numbers, input)) = parts(payload, 4) else {
        return refuse(out, 'F');
    };
    let f = view::image_facts(input, endian::u32_at(numbers, 0) as usize);
    write!(out, "F {}", f.number)?;
    facts::image(out, f.image)?;
    writeln!(out)
}

pub fn layer_facts(out: &mut impl Write, payload: &[u8]) -> io::Result<()> {
    let Some((numbers, input)) = parts(payload, 8) else {
        return refuse(out, 'Y');
    };
    let room = endian::u32_at(numbers, 0) as usize;
    let f = view::layer_facts(input, room, endian::u32_at(numbers, 4));
    write!(out, "Y {}", f.number)?;
    facts::layer(out, f.layer)?;
    writeln!(out)
}

pub fn layer_name(out: &mut impl Write, payload: &[u8]) -> io::Result<()> {
    let Some((numbers, input)) = parts(payload, 8) else {
        return refuse(out, 'N');
    };
    let room = endian::u32_at(numbers, 0) as usize;
    let k = endian::u32_at(numbers, 4);
    let p = view::name_part(input, room, k);
    write!(out, "N {} {} {}", p.number, p.start, p.length)?;
    shown(out, view::name(input, room, k))
}
