// Cases of the listing. L: room, input. The table has the numbers that its room asks, and some more, too few for an entry; each byte of it
// held EE. Then the pencil is asked for each entry. T: room, input, and no table.
use crate::fields::{parts, refuse};
use crate::{asked, hash};
use answer::Told;
use entry::Entry;
use std::io;
use std::io::Write;

// The largest room of a table, the most numbers that it then has, and what each of them held.
const ROOM: usize = 512;

pub const NUMBERS: usize = 7181;

pub const EMPTY: u32 = 0xEEEEEEEE;

fn answered(out: &mut impl Write, kind: char, told: Told) -> io::Result<()> {
    write!(out, "{kind} {} {} {}", told.number, told.place, told.count)
}

pub fn listing(out: &mut impl Write, payload: &[u8]) -> io::Result<()> {
    let Some((numbers, input)) = parts(payload, 4) else {
        return refuse(out, 'L');
    };
    let room = endian::u32_at(numbers, 0) as usize;
    if ROOM < room {
        return refuse(out, 'L');
    }
    let size = room * Entry::SIZE + input.len() % Entry::SIZE;
    let mut held = [EMPTY; NUMBERS];
    let table = &mut held[..size];
    let told = Told::from(listing::list(input, table));
    answered(out, 'L', told)?;
    writeln!(
        out,
        " {} {}",
        hash::of_numbers(table),
        asked::all(input, room, told.count)
    )
}

pub fn count(out: &mut impl Write, payload: &[u8]) -> io::Result<()> {
    let Some((numbers, input)) = parts(payload, 4) else {
        return refuse(out, 'T');
    };
    let room = endian::u32_at(numbers, 0) as usize;
    answered(out, 'T', listing::count(input, room).into())?;
    writeln!(out)
}
