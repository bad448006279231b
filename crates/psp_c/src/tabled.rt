// Listing for C into a table of numbers, and into nothing: a caller that counts first knows how much table to lend.
ghost use Rattle.std.specs.Prelude.{◌≡◌};
ghost use Rattle.listing.specs.Listing.{listed, told, lists};

use answer::Told;

// Lists an input into a table. The first count entries stand in it, whatever the answer; the rest is untouched.
#[unsafe(no_mangle)]
pub extern "C" fn psp_list(input: &[u8], table: &mut [u32]) -> Told
    ensures { record { told = result; dest = table.new } ≡ lists input.now table.old }
{
    listing::list(input, table).into()
}

// The answer of a listing with a room for so many entries; nothing is stored.
#[unsafe(no_mangle)]
pub extern "C" fn psp_count(input: &[u8], room: usize) -> Told
    ensures { result ≡ told (listed input.now room) }
{
    listing::count(input, room).into()
}
