// Reading: the entries of a saved table, if it is one and the table has room.
ghost use Rattle.std.specs.Prelude.{◌≡◌, ◌*◌, ◌≤◌, length, Err};
ghost use Rattle.saved.specs.Saved.{numbers_at, read_paper, read_result, reads};

use crate::sides::{InBytes, Version};
use crate::{COUNTED, ENTRY, HEAD, sides};
use endian::big;
use entry::Entry;

// Why no entries are read; `read_paper` gives each its number.
#[derive(Clone, Copy)]
pub enum ReadError {
    // 70: fewer than nine bytes, or a length that is not the file's
    WrongLength,
    // 71: another version
    WrongVersion,
    // 72: a count that is not the length's
    WrongCount,
    // 74: a version that its sides do not have
    WrongSides,
    // 73: the table has room for fewer entries
    NoRoom,
}

// The number, and the entries that were read.
// Stays: a number beside values, as (a) C has no Result (psp.h).
#[repr(C)]
#[derive(Clone, Copy)]
pub struct Restored {
    pub number: u32,
    pub count: usize,
}

impl From<ReadError> for Restored {
    ghost from_gives = { λ error told. told ≡ read_paper (Err error) };

    fn from(error: ReadError) -> Restored {
        let number = match error {
            ReadError::WrongLength => 70,
            ReadError::WrongVersion => 71,
            ReadError::WrongCount => 72,
            ReadError::WrongSides => 74,
            ReadError::NoRoom => 73,
        };
        Restored { number, count: 0 }
    }
}

impl From<Result<usize, ReadError>> for Restored {
    ghost from_gives = { λ answer told. told ≡ read_paper answer };

    fn from(answer: Result<usize, ReadError>) -> Restored {
        match answer {
            Ok(count) => Restored { number: 0, count },
            Err(error) => error.into(),
        }
    }
}

// The numbers of a file's bytes become those of a table.
fn get_numbers(bytes: &[u8], numbers: &mut [u32])
    requires { 4 * length numbers.old ≤ length bytes.now }
    ensures { numbers.new ≡ numbers_at (length numbers.old) bytes.now 0 }
{
    // Stays: a place of four times the index, as (c) nothing is known of numbers that a zip's `iter_mut` writes.
    for (i, number) in numbers.iter_mut().enumerate() {
        *number = big::u32_at(bytes, 4 * i);
    }
}

// Reads a saved table into the front of a table, which keeps the rest. 70: fewer than nine bytes, or a length that is not the file's. 71: another
// version. 72: a count that is not the length's. 74: version 1 with a large side, or version 2 without one. 73: the table has room for fewer
// entries. All five leave the table untouched.
pub fn read_table(file: &[u8], table: &mut [u32]) -> Result<usize, ReadError>
    ensures { read_result result table.new ≡ reads file.now table.old }
{
    if file.len() < HEAD {
        return Err(ReadError::WrongLength);
    }
    let length = big::u32_at(file, 0) as usize;
    if length != file.len() - 4 {
        return Err(ReadError::WrongLength);
    }
    let Ok(version) = Version::try_from(file[4]) else {
        return Err(ReadError::WrongVersion);
    };
    let count = big::u32_at(file, 5) as usize;
    if length != COUNTED + ENTRY * count {
        return Err(ReadError::WrongCount);
    }
    let right = sides::version_of(&InBytes(&file[HEAD..]));
    if version != right {
        return Err(ReadError::WrongSides);
    }
    if table.len() / Entry::SIZE < count {
        return Err(ReadError::NoRoom);
    }
    get_numbers(&file[HEAD..], &mut table[..Entry::SIZE * count]);
    Ok(count)
}
