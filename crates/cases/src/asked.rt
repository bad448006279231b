// The pencil's replies of an L case, as one hash: to each k and two past the last, in the case's room, in a room that is full before entry k and
// in one that it fills. A reply is 1 and the entry's numbers, or 0 and the final answer.
use crate::hash;
use answer::{Outcome, Told};
use entry::Entry;

// No table of a case has room for more.
const MOST: usize = 512;

fn short(x: usize) -> u32 {
    (x % 4294967296) as u32
}

fn mixed(before: u32, reply: Result<Entry, Outcome>) -> u32 {
    match reply {
        Ok(entry) => hash::mix_numbers(hash::mix_number(before, 1), &<[u32; 14]>::from(entry)),
        Err(outcome) => {
            let told = Told::from(outcome);
            hash::mix_numbers(
                before,
                &[0, told.number, short(told.place), short(told.count)],
            )
        }
    }
}

pub fn all(input: &[u8], room: usize, count: usize) -> u32 {
    let mut hash = hash::START;
    // Two past the last entry.
    for k in 0..count.min(MOST) + 2 {
        hash = mixed(hash, asking::entry_at(input, room, k));
        hash = mixed(hash, asking::entry_at(input, k, k));
        hash = mixed(hash, asking::entry_at(input, k + 1, k));
    }
    hash
}
