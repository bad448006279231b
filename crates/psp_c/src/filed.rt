// Saved tables for C: written, and read back.
ghost use Rattle.std.specs.Prelude.{◌≡◌};
ghost use Rattle.saved.specs.Saved.{writes, reads};

use saved::reader::Restored;
use saved::writer::Saved;

// Writes the whole entries of a table as a file. A refusal leaves dest untouched, and no byte past the file changes.
#[unsafe(no_mangle)]
pub extern "C" fn psp_write_table(table: &[u32], dest: &mut [u8]) -> Saved
    ensures { record { told = result; dest = dest.new } ≡ writes table.now dest.old }
{
    saved::write_table(table, dest).into()
}

// Reads such a file into a table. A refusal leaves the table untouched, and no number past the entries changes.
#[unsafe(no_mangle)]
pub extern "C" fn psp_read_table(file: &[u8], table: &mut [u32]) -> Restored
    ensures { record { told = result; dest = table.new } ≡ reads file.now table.old }
{
    saved::read_table(file, table).into()
}
