// Listing into records: a caller that works with entries, not with a table's numbers, lends both, and finds the same entries in each.
ghost use Rattle.std.specs.Prelude.{◌≡◌, ◌*◌, ◌≤◌, length};
ghost use Rattle.entry.specs.Entry.{size};
ghost use Rattle.psp.specs.Recorded.{records_of, ListedRecords};

use answer::Told;
use entry::Entry;

// Stores the first `count` entries of the table as the first records; the rest of the records stays as it was.
#[tactic(auto, unfolding(crate::specs::Recorded::records_of))]
fn fill(table: &[u32], count: usize, records: &mut [Entry])
    requires { (count * size ≤ length table.now) × (count ≤ length records.old) }
    ensures { records.new ≡ records_of table.now count records.old }
{
    // Stays: the index of the records, as (c) nothing is known of records that a zip's `iter_mut` writes.
    let (entries, _) = table.as_chunks::<{ Entry::SIZE }>();
    for (i, numbers) in entries[..count].iter().enumerate() {
        records[i] = Entry::from(*numbers);
    }
}

// Lists an input into a table and into records alike: the room is the smaller of the two. The answer is that of the listing in this room;
// the first count entries stand in both, and both rests are untouched.
pub fn list_records(input: &[u8], table: &mut [u32], records: &mut [Entry]) -> Told
    ensures { ListedRecords input.now table.old records.old result table.new records.new }
{
    let told = Told::from(listing::list_up_to(input, records.len(), table));
    fill(table, told.count, records);
    told
}
