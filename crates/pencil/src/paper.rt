// The paper, and what a turn of the pencil gives.
ghost use Rattle.std.specs.Prelude.{◌≡◌};
ghost use Rattle.pencil.specs.Pencil.{end_of, levels_of, entered};

use answer::Outcome;
use entry::Entry;
use headers::fields::Fields;
use headers::file_header::FileHeader;
use listing::BEYOND;
use memory::{MAIN, State};
use std::ops::ControlFlow;

// The blocks that are open, by where they end, the inner one first: none at the main level, one inside a main block, two inside what it
// holds.
// Stays: (d) as an array of two ends with a count, or as an Option of an end beside an Option, it would have forms that no paper has.
#[derive(Clone, Copy)]
pub enum Inside {
    Nothing,
    One(usize),
    Two(usize, usize),
}

impl Inside {
    // Where the inner block ends. At the main level no end is held against a block.
    pub fn end(self) -> usize
        ensures { result ≡ end_of self }
    {
        match self {
            Inside::Nothing => BEYOND,
            Inside::One(end) | Inside::Two(end, _) => end,
        }
    }

    // How many more may be opened.
    pub fn levels(self) -> usize
        ensures { result ≡ levels_of self }
    {
        match self {
            Inside::Nothing => MAIN,
            Inside::One(_) => 1,
            Inside::Two(_, _) => 0,
        }
    }

    // With one more open.
    pub fn enter(self, end: usize) -> Inside
        ensures { result ≡ entered end self }
    {
        match self {
            Inside::Nothing => Inside::One(end),
            Inside::One(outer) | Inside::Two(outer, _) => Inside::Two(end, outer),
        }
    }
}

// The place, the open blocks, what the rules remember, and how many entries were passed.
#[derive(Clone, Copy)]
pub struct Paper {
    pub place: usize,
    pub inside: Inside,
    pub state: State,
    pub count: usize,
}

impl Paper {
    // Behind the file header.
    // Stays: (d) a constant and no `Default`: the place is not 0.
    pub const FIRST: Paper = Paper {
        place: FileHeader::SIZE,
        inside: Inside::Nothing,
        state: State::START,
        count: 0,
    };
}

// The entry that was asked for; or, where there is none, the listing's final answer.
pub type Reply = Result<Entry, Outcome>;

// A turn breaks off with the reply, or goes on with a new paper.
pub type Turn = ControlFlow<Reply, Paper>;
