// Listing into records: a caller that works with entries, not with a table's numbers, lends both, and finds the same entries in each.
ghost use Rattle.psp.specs.Recorded.{ListedRecords};

use answer::Told;
use entry::Entry;

// Lists an input into a table and into records alike: the room is the smaller of the two. The answer is that of the listing in this room;
// the first count entries stand in both, and both rests are untouched.
#[unsafe(no_mangle)]
pub extern "C" fn psp_list_records(input: &[u8], table: &mut [u32], records: &mut [Entry]) -> Told
    ensures { ListedRecords input.now table.old records.old result table.new records.new }
{
    psp::list_records(input, table, records)
}
