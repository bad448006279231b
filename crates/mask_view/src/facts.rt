// Facts are whole chunks in the caller's own record. Beside a refusal they are zeros.
ghost use Rattle.std.specs.Prelude.{◌≡◌};
ghost use Rattle.mask_view.specs.Facts.{selection_told, alpha_told, selection_facts, alpha_facts};

use chunk::alpha_information::AlphaChunk;
use chunk::selection_information::SelectionChunk;
use view::{NotShown, seek};

// Stays: a number beside values, as (a) C has no Result (psp.h).
#[repr(C)]
#[derive(Clone, Copy)]
pub struct SelectionFacts {
    pub number: u32,
    pub selection: SelectionChunk,
}

// Stays: a number beside values, as (a) C has no Result (psp.h).
#[repr(C)]
#[derive(Clone, Copy)]
pub struct AlphaFacts {
    pub number: u32,
    pub alpha: AlphaChunk,
}

impl From<Result<SelectionChunk, NotShown>> for SelectionFacts {
    ghost from_gives = { λ seen facts. facts ≡ selection_told seen };

    fn from(seen: Result<SelectionChunk, NotShown>) -> SelectionFacts {
        match seen {
            Ok(selection) => SelectionFacts {
                number: 0,
                selection,
            },
            Err(not_shown) => SelectionFacts {
                number: not_shown.into(),
                selection: SelectionChunk::default(),
            },
        }
    }
}

impl From<Result<AlphaChunk, NotShown>> for AlphaFacts {
    ghost from_gives = { λ seen facts. facts ≡ alpha_told seen };

    fn from(seen: Result<AlphaChunk, NotShown>) -> AlphaFacts {
        match seen {
            Ok(alpha) => AlphaFacts { number: 0, alpha },
            Err(not_shown) => AlphaFacts {
                number: not_shown.into(),
                alpha: AlphaChunk::default(),
            },
        }
    }
}

// The listing's own number; then 46: no selection.
#[tactic(auto, unfolding(crate::specs::Facts::selection_facts))]
pub fn selection_facts(input: &[u8], room: usize) -> SelectionFacts
    ensures { result ≡ selection_facts input.now room }
{
    seek::<SelectionChunk>(input, room, 0).into()
}

// Alpha channels count from 0 in file order. The listing's own number; then 47: no alpha channel k.
#[tactic(auto, unfolding(crate::specs::Facts::alpha_facts))]
pub fn alpha_facts(input: &[u8], room: usize, k: u32) -> AlphaFacts
    ensures { result ≡ alpha_facts input.now room k }
{
    seek::<AlphaChunk>(input, room, k).into()
}
