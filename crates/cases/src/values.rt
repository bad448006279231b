// Cases of the calls without a buffer. I: two rectangles. D: a resolution's value, as its bits, and its metric.
use crate::facts;
use crate::fields::refuse;
use attributes::resolution::Resolution;
use rect::Rect;
use std::io;
use std::io::Write;

pub fn intersection(out: &mut impl Write, payload: &[u8]) -> io::Result<()> {
    if payload.len() != 32 {
        return refuse(out, 'I');
    }
    let r = Rect::decode(payload, 0).intersect(Rect::decode(payload, 16));
    write!(out, "I")?;
    facts::corners(out, r)?;
    writeln!(out)
}

// The bits of a double above 0, and of 0 itself. A NaN has none of its own.
fn bits_of(x: f64) -> u64 {
    if x > 0.0 { f64::to_bits(x) } else { 0 }
}

pub fn dots(out: &mut impl Write, payload: &[u8]) -> io::Result<()> {
    if payload.len() != 9 {
        return refuse(out, 'D');
    }
    let r = Resolution {
        value: endian::double_of(endian::u64_at(payload, 0)),
        metric: endian::u8_at(payload, 8),
    };
    match r.per_centimetre() {
        None => writeln!(out, "D 0 0"),
        Some(dots) => writeln!(out, "D 1 {}", bits_of(dots)),
    }
}
