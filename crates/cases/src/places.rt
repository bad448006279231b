// Cases of facts at a place. H: place, input. Every function that takes a place is asked there, and the line has their answers one after
// another, each behind the letter of the view that it is like.
use crate::facts;
use crate::fields::{parts, refuse};
use std::io;
use std::io::Write;
use view::Part;

fn name(out: &mut impl Write, kind: char, p: Part) -> io::Result<()> {
    write!(out, " {kind} {} {} {}", p.number, p.start, p.length)
}

fn layer(out: &mut impl Write, input: &[u8], place: usize) -> io::Result<()> {
    let f = view::layer_at(input, place);
    write!(out, " Y {}", f.number)?;
    facts::layer(out, f.layer)?;
    name(out, 'N', view::name_at(input, place))
}

fn selection(out: &mut impl Write, input: &[u8], place: usize) -> io::Result<()> {
    let f = mask_view::selection_at(input, place);
    write!(out, " S {}", f.number)?;
    facts::mask(out, f.selection.mask)
}

fn alpha(out: &mut impl Write, input: &[u8], place: usize) -> io::Result<()> {
    let f = mask_view::alpha_at(input, place);
    write!(out, " A {}", f.number)?;
    facts::alpha(out, f.alpha)?;
    name(out, 'M', mask_view::alpha_name_at(input, place))
}

pub fn place(out: &mut impl Write, payload: &[u8]) -> io::Result<()> {
    let Some((numbers, input)) = parts(payload, 8) else {
        return refuse(out, 'H');
    };
    let place = endian::u64_at(numbers, 0) as usize;
    write!(out, "H")?;
    layer(out, input, place)?;
    selection(out, input, place)?;
    alpha(out, input, place)?;
    writeln!(out)
}
