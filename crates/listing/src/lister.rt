// Listing an input: into a table, or into nothing, for views.
ghost use Rattle.std.specs.Prelude.{◌≡◌};
ghost use Rattle.answer.specs.Answers.{paper};
ghost use Rattle.listing.specs.Question.{found_in};
ghost use Rattle.listing.specs.Listing.{listed, told, lists, lists_up_to, left_by};
ghost use Rattle.listing.specs.Walks.{Walks};

use crate::head::judge;
use crate::question::{Found, Question};
use crate::walker::{Out, siblings};
use answer::Outcome;
use entry::Entry;
use headers::fields::Fields;
use headers::file_header::FileHeader;
use memory::{MAIN, State};
use plain::Stretch;

// No block of a permitted input ends past this: the input is at most 2^30 bytes, and a block's length has 32 bits.
pub const BEYOND: usize = 8589934592;

// The one walk of an input, for every use: a room in entries, a table that keeps as many of them as it reaches, and a question.
fn walk(input: &[u8], room: usize, table: &mut [u32], question: Question) -> Out
    ensures { Walks input.now room table.old question result table.new }
{
    let head = judge(input);
    if head.answer.is_err() {
        return Out {
            outcome: head,
            state: State::START,
            found: Found::NOTHING,
        };
    }
    let whole = Stretch {
        input,
        at: FileHeader::SIZE,
        end: BEYOND,
        count: 0,
        room,
    };
    siblings(whole, State::START, MAIN, question, Found::NOTHING, table)
}

// Lists an input into a table of 32-bit numbers, fourteen an entry, its room rounded down. Count entries stand in front of the table,
// whatever the answer; nothing behind them changes.
pub fn list(input: &[u8], table: &mut [u32]) -> Outcome
    ensures { left_by result table.new ≡ lists input.now table.old }
{
    list_up_to(input, usize::MAX, table)
}

// The same with a room for at most so many entries: the smaller of that and the table's own.
pub fn list_up_to(input: &[u8], most: usize, table: &mut [u32]) -> Outcome
    ensures { left_by result table.new ≡ lists_up_to input.now most table.old }
{
    let room = most.min(table.len() / Entry::SIZE);
    walk(input, room, table, Question::IDLE).outcome
}

// The same listing with a room for so many entries and no table: the answer, and what was asked of the entries.
pub fn seek(input: &[u8], room: usize, question: Question) -> Out
    ensures { (paper result.outcome ≡ told (listed input.now room)) × (result.found ≡ found_in question (listed input.now room).entries) }
{
    let mut none = [0u32; 0];
    walk(input, room, &mut none, question)
}

// The answer alone.
pub fn count(input: &[u8], room: usize) -> Outcome
    ensures { paper result ≡ told (listed input.now room) }
{
    seek(input, room, Question::IDLE).outcome
}
