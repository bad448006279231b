// Skipped blocks: they tend to come in runs.
ghost use Rattle.std.specs.Prelude.{◌≡◌, ◌≤◌};
ghost use Rattle.memory.specs.Parent.{main};
ghost use Rattle.plain.specs.Skips.{is_passable, Skips};

use crate::stretch::{Passed, Stretch};
use headers::block_header::BlockHeader;
use headers::fields::Fields;
use headers::kind::Kind;
use memory::MAIN;

// Skipped whatever came before, and of an id below 12 not the one that is asked about.
#[tactic(auto, unfolding(crate::specs::Skips::is_passable))]
fn passable(levels: usize, asked: u32, id: u16) -> bool
    ensures { result ≡ is_passable levels asked id }
{
    if id < Kind::COUNT as u16 {
        let unjudged = id == Kind::Creator as u16 || Kind::Extended as u16 <= id;
        return levels == MAIN && unjudged && id as u32 != asked;
    }
    true
}

// Skipped blocks one behind the other, as long as they are passable and have room. The sum in the loop's test keeps the way from length to
// length short.
pub fn skips(stretch: Stretch, levels: usize, asked: u32, table: &mut [u32]) -> Passed
    requires { levels ≤ main }
    ensures { Skips stretch.entry.input.now stretch.entry.at stretch.entry.end levels asked stretch.entry.room stretch.entry.count table.old result table.new }
{
    let s = stretch.input;
    let stop = stretch.reach();
    let mut at = stretch.at;
    let mut count = stretch.count;
    // Stays: (d) each turn is as long as its block: an iterator of blocks would hold this same place, and the table's count.
    while at + BlockHeader::SIZE <= stop {
        let h = BlockHeader::decode(s, at);
        // Stays: (b) each test leaves by itself, here and in `passable`: in one chain a run of blocks takes a fifth longer.
        if !h.marked() {
            break;
        }
        if !passable(levels, asked, h.id) {
            break;
        }
        let total = h.total as usize;
        let next = at + BlockHeader::SIZE + total;
        if stop < next || count == stretch.room {
            break;
        }
        let e = kinds::filled_entry(h.id as u32, 1, MAIN - levels, at, BlockHeader::SIZE, total);
        entry::store(table, count, e);
        at = next;
        count += 1;
    }
    Passed { at, count }
}
