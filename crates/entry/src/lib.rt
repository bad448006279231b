// An entry of the table (document 01, "The table"): its fourteen numbers, by what they tell of a block, and how a table keeps them.

#![tactic(auto)]

ghost use Rattle.std.specs.Prelude.{◌≡◌, ◌+◌, ◌≤◌, length};
ghost use Rattle.laws.specs.Lists.{over};
ghost use Rattle.entry.specs.Entry.{size, numbers_of, entry_at, stored};

use rect::Size;

// The block itself: its id, whether it is skipped (0 or 1), its nesting level, its header's place and the bytes that it owns.
// Stays: id and `skipped` are numbers, as (a) they are the table's own, which C sees, and the id of a skipped block may be any.
#[repr(C)]
#[derive(Clone, Copy)]
pub struct Block {
    pub id: u32,
    pub skipped: u32,
    pub level: u32,
    pub place: u32,
    pub owned: u32,
}

// The codes of a channel.
#[repr(C)]
#[derive(Clone, Copy)]
pub struct Code {
    pub bitmap: u32,
    pub channel: u32,
}

// Where a block's content starts in the file, and how many bytes are stored there.
#[repr(C)]
#[derive(Clone, Copy)]
pub struct Content {
    pub start: u32,
    pub stored: u32,
}

// A part without meaning for its kind of block is zeros.
#[repr(C)]
#[derive(Clone, Copy)]
pub struct Entry {
    pub block: Block,
    pub layer: u32,
    pub code: Code,
    pub content: Content,
    pub size: Size,
}

impl Code {
    // No channel.
    // Stays: (d) a constant and no `Default`: other constants are made of it, and a constant's value calls no function.
    pub const NONE: Code = Code {
        bitmap: 0,
        channel: 0,
    };
}

impl Content {
    // No content.
    // Stays: (d) a constant and no `Default`, as `Code::NONE`.
    pub const NONE: Content = Content {
        start: 0,
        stored: 0,
    };
}

impl Entry {
    // The numbers of an entry.
    pub const SIZE: usize = 14;

    // No entry.
    // Stays: (d) a constant and no `Default`, as `Code::NONE`.
    pub const NONE: Entry = Entry {
        block: Block {
            id: 0,
            skipped: 0,
            level: 0,
            place: 0,
            owned: 0,
        },
        layer: 0,
        code: Code::NONE,
        content: Content::NONE,
        size: Size::NONE,
    };

    // The entry whose numbers stand in the table from a place on.
    pub fn read(table: &[u32], at: usize) -> Entry
        requires { at + size ≤ length table.now }
        ensures { result ≡ entry_at table.now at }
    {
        let mut numbers = [0; Entry::SIZE];
        numbers.copy_from_slice(&table[at..at + Entry::SIZE]);
        Entry::from(numbers)
    }
}

// The numbers in the table's order.
impl From<[u32; Entry::SIZE]> for Entry {
    ghost from_gives = { λ numbers e. e ≡ entry_at numbers 0 };

    fn from(numbers: [u32; Entry::SIZE]) -> Entry {
        let [
            id,
            skipped,
            level,
            place,
            owned,
            layer,
            bitmap,
            channel,
            start,
            stored,
            width,
            height,
            plane,
            row,
        ] = numbers;
        Entry {
            block: Block {
                id,
                skipped,
                level,
                place,
                owned,
            },
            layer,
            code: Code { bitmap, channel },
            content: Content { start, stored },
            size: Size {
                width,
                height,
                plane,
                row,
            },
        }
    }
}

impl From<Entry> for [u32; Entry::SIZE] {
    ghost from_gives = { λ e numbers. numbers ≡ numbers_of e };

    fn from(e: Entry) -> [u32; Entry::SIZE] {
        [
            e.block.id,
            e.block.skipped,
            e.block.level,
            e.block.place,
            e.block.owned,
            e.layer,
            e.code.bitmap,
            e.code.channel,
            e.content.start,
            e.content.stored,
            e.size.width,
            e.size.height,
            e.size.plane,
            e.size.row,
        ]
    }
}

// Stores an entry's numbers from a place of the table on.
pub fn put(table: &mut [u32], used: usize, e: Entry)
    requires { used + size ≤ length table.old }
    ensures { table.new ≡ over table.old used (numbers_of e) }
{
    let numbers: [u32; Entry::SIZE] = e.into();
    // Stays: (b) `copy_from_slice` tests the two for an overlap and brings the numbers through the stack, where this loop is stores alone.
    for (i, number) in numbers.iter().enumerate() {
        table[used + i] = *number;
    }
}

// Stores an entry as the table's index-th, where the table reaches; elsewhere nothing.
#[tactic(auto, unfolding(crate::specs::Entry::stored, laws::specs::Choice::pick))]
pub fn store(table: &mut [u32], index: usize, e: Entry)
    ensures { table.new ≡ stored table.old index e }
{
    if index < table.len() / Entry::SIZE {
        put(table, index * Entry::SIZE, e);
    }
}
