// What every judge answers with: a refusal and its place, or the entry of its block.
ghost use Rattle.std.specs.Prelude.{◌≡◌, ◌+◌, ◌≤◌, ◌<◌, ◌^◌, Err};
ghost use Rattle.limits.specs.Limits.{input_limit};
ghost use Rattle.entry.specs.Entry.{block, content, ranked, filled};
ghost use Rattle.kinds.specs.Blocks.{told, wrong_field};

use answer::Refusal;
use entry::{Block, Content, Entry};
use memory::State;

// What stands at a place: the parent's end; an entry, then the next place and state; an entry whose inside is entered, then the place and the
// state inside, and where the inside ends.
#[derive(Clone, Copy)]
pub enum Step {
    End,
    Leaf {
        entry: Entry,
        next: usize,
        state: State,
    },
    Nest {
        entry: Entry,
        inside: usize,
        state: State,
        after: usize,
    },
}

// Or nothing that is permitted: a refusal and its place.
#[derive(Clone, Copy)]
pub struct Stop {
    pub refusal: Refusal,
    pub place: usize,
}

// A block as its entry has it.
// Stays: (d) an id is a number here and below, since a skipped block may have one that no kind has; `skipped` is a number that C sees.
pub fn entry_block(id: u32, skipped: u32, level: usize, at: usize, owned: usize) -> Block
    requires { (level < 2 ^ 32) × (at < 2 ^ 32) × (owned < 2 ^ 32) }
    ensures { result ≡ block id skipped level at owned }
{
    Block {
        id,
        skipped,
        level: level as u32,
        place: at as u32,
        owned: owned as u32,
    }
}

// A block that tells no content, and its rank in its parent, 0 where it has none.
pub fn ranked_entry(id: u32, level: usize, at: usize, owned: usize, layer: u32) -> Entry
    requires { (level < 2 ^ 32) × (at < 2 ^ 32) × (owned < 2 ^ 32) }
    ensures { result ≡ ranked (block id 0 level at owned) layer }
{
    Entry {
        block: entry_block(id, 0, level, at, owned),
        layer,
        ..Entry::NONE
    }
}

// A block whose content follows its head.
pub fn filled_entry(
    id: u32,
    skipped: u32,
    level: usize,
    at: usize,
    head: usize,
    stored: usize,
) -> Entry
    requires { (level < 2 ^ 32) × (at + head + stored < 2 ^ 32) }
    ensures { result ≡ filled (block id skipped level at (head + stored)) (content (at + head) stored) }
{
    Entry {
        block: entry_block(id, skipped, level, at, head + stored),
        content: Content {
            start: (at + head) as u32,
            stored: stored as u32,
        },
        ..Entry::NONE
    }
}

// A field at an offset of a chunk is not permitted: the place is the field's.
pub fn wrong_field(chunk: usize, offset: u32) -> Stop
    requires { chunk ≤ input_limit }
    ensures { told (Err result) ≡ wrong_field chunk offset }
{
    Stop {
        refusal: Refusal::WrongField,
        place: chunk + offset as usize,
    }
}
