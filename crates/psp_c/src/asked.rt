// One entry for C, by pencil: a caller that checks a table against the file, or wants one entry, lends nothing but the input.
ghost use Rattle.std.specs.Prelude.{◌≡◌};
ghost use Rattle.listing.specs.Listing.{listed};
ghost use Rattle.pencil.specs.Agrees.{asked};
ghost use Rattle.asking.specs.Told.{told};

use asking::Asked;

// Entry k of the listing in a room of so many entries; or the listing's final answer, where it has no such entry. Nothing is stored.
#[unsafe(no_mangle)]
pub extern "C" fn psp_entry_at(input: &[u8], room: usize, k: usize) -> Asked
    ensures { result ≡ told (asked (listed input.now room) k) }
{
    asking::entry_at(input, room, k).into()
}
