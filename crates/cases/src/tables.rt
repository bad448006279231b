// Cases of saved tables. W: destination, and the numbers of a table, four bytes each. R: how many numbers the table has, and the file. Each
// byte of a destination, and of a table that is read into, held EE.
use crate::fields::{parts, refuse};
use crate::hash;
use crate::listed::{EMPTY, NUMBERS};
use crate::planes::{DESTINATION, HELD};
use saved::reader::Restored;
use saved::writer::Saved;
use std::io;
use std::io::Write;

// The numbers of a payload become the table's.
fn take(numbers: &[[u8; 4]], table: &mut [u32]) {
    for (place, number) in table.iter_mut().zip(numbers) {
        *place = u32::from_le_bytes(*number);
    }
}

pub fn write(out: &mut impl Write, payload: &[u8]) -> io::Result<()> {
    let Some((front, bytes)) = parts(payload, 4) else {
        return refuse(out, 'W');
    };
    let (numbers, rest) = bytes.as_chunks::<4>();
    let size = endian::u32_at(front, 0) as usize;
    if DESTINATION < size || NUMBERS < numbers.len() || !rest.is_empty() {
        return refuse(out, 'W');
    }
    let mut longest = [EMPTY; NUMBERS];
    let table = &mut longest[..numbers.len()];
    take(numbers, table);
    let mut held = [HELD; DESTINATION];
    let dest = &mut held[..size];
    let told = Saved::from(saved::write_table(table, dest));
    writeln!(
        out,
        "W {} {} {}",
        told.number,
        told.length,
        hash::of_bytes(dest)
    )
}

pub fn read(out: &mut impl Write, payload: &[u8]) -> io::Result<()> {
    let Some((numbers, file)) = parts(payload, 4) else {
        return refuse(out, 'R');
    };
    let mut held = [EMPTY; NUMBERS];
    let Some(table) = held.get_mut(..endian::u32_at(numbers, 0) as usize) else {
        return refuse(out, 'R');
    };
    let told = Restored::from(saved::read_table(file, table));
    writeln!(
        out,
        "R {} {} {}",
        told.number,
        told.count,
        hash::of_numbers(table)
    )
}
