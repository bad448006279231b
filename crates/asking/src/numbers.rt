// A reply in numbers.
ghost use Rattle.std.specs.Prelude.{◌≡◌};
ghost use Rattle.asking.specs.Told.{told};

use answer::Told;
use entry::Entry;
use pencil::Reply;

// Whether the entry was found, 1 or 0; the final answer where it was not; the entry where it was. The other of the two is zeros.
// Stays: a number beside values, as (a) C has no Result (psp.h).
#[repr(C)]
#[derive(Clone, Copy)]
pub struct Asked {
    pub found: u32,
    pub listed: Told,
    pub entry: Entry,
}

// Stays: (d) a constant and no `Default`: its name says what the zeros mean.
const NO_ANSWER: Told = Told {
    number: 0,
    place: 0,
    count: 0,
};

impl From<Reply> for Asked {
    ghost from_gives = { λ reply asked. asked ≡ told reply };

    fn from(reply: Reply) -> Asked {
        match reply {
            Ok(entry) => Asked {
                found: 1,
                listed: NO_ANSWER,
                entry,
            },
            Err(outcome) => Asked {
                found: 0,
                listed: outcome.into(),
                entry: Entry::NONE,
            },
        }
    }
}
