// Writing: the file of a table's whole entries, if four bytes can say its length and the destination has room.
ghost use Rattle.std.specs.Prelude.{◌≡◌, ◌+◌, ◌*◌, ◌≤◌, length, Err};
ghost use Rattle.laws.specs.Lists.{over};
ghost use Rattle.saved.specs.Saved.{in_bytes, saved, entries_in, write_paper, write_result, writes};

use crate::{COUNTED, ENTRY, HEAD, sides};
use endian::big;
use entry::Entry;

// The most entries whose length four bytes can say: 56 each, and 5, are at most 4,294,967,295.
const MOST: usize = 76695844;

// Why no file is written; `write_paper` gives each its number.
#[derive(Clone, Copy)]
pub enum WriteError {
    // 70: four bytes cannot say its length
    OverLong,
    // 73: the destination is shorter than the file
    NoRoom,
}

// The number, and the bytes of the file.
// Stays: a number beside values, as (a) C has no Result (psp.h).
#[repr(C)]
#[derive(Clone, Copy)]
pub struct Saved {
    pub number: u32,
    pub length: usize,
}

impl From<WriteError> for Saved {
    ghost from_gives = { λ error told. told ≡ write_paper (Err error) };

    fn from(error: WriteError) -> Saved {
        let number = match error {
            WriteError::OverLong => 70,
            WriteError::NoRoom => 73,
        };
        Saved { number, length: 0 }
    }
}

impl From<Result<usize, WriteError>> for Saved {
    ghost from_gives = { λ answer told. told ≡ write_paper answer };

    fn from(answer: Result<usize, WriteError>) -> Saved {
        match answer {
            Ok(length) => Saved { number: 0, length },
            Err(error) => error.into(),
        }
    }
}

// Numbers go into the front of dest.
fn put_numbers(numbers: &[u32], dest: &mut [u8])
    requires { 4 * length numbers.now ≤ length dest.old }
    ensures { dest.new ≡ over dest.old 0 (in_bytes numbers.now) }
{
    // Stays: a place of four times the index, as (c) nothing is known of bytes that a zip's `chunks_exact_mut` writes.
    for (i, number) in numbers.iter().enumerate() {
        big::put_u32(dest, 4 * i, *number);
    }
}

// The file of so many entries goes into the front of dest.
fn put_file(table: &[u32], count: usize, dest: &mut [u8])
    requires { (count ≡ entries_in table.now) × (count ≤ 76695844) × (9 + 56 * count ≤ length dest.old) }
    ensures { dest.new ≡ over dest.old 0 (saved table.now) }
{
    big::put_u32(dest, 0, (COUNTED + ENTRY * count) as u32);
    dest[4] = u8::from(sides::version_of(&table));
    big::put_u32(dest, 5, count as u32);
    put_numbers(&table[..Entry::SIZE * count], &mut dest[HEAD..]);
}

// Writes the whole entries of a table into the front of dest, which keeps the rest. 70: four bytes cannot say the length. 73: dest is shorter
// than the file. Both leave dest untouched.
pub fn write_table(table: &[u32], dest: &mut [u8]) -> Result<usize, WriteError>
    ensures { write_result result dest.new ≡ writes table.now dest.old }
{
    let count = table.len() / Entry::SIZE;
    if MOST < count {
        return Err(WriteError::OverLong);
    }
    let length = HEAD + ENTRY * count;
    if dest.len() < length {
        return Err(WriteError::NoRoom);
    }
    put_file(table, count, dest);
    Ok(length)
}
