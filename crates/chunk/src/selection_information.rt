// The selection information chunk (document 000, section 5.10).
ghost use Rattle.std.specs.Prelude.{◌≡◌};
ghost use Rattle.chunk.specs.SelectionInformation.{selection_size, selection_of, selection_fault};

use crate::mask::Mask;
use headers::fields::Fields;

#[repr(C)]
#[derive(Clone, Copy, Default)]
pub struct SelectionChunk {
    pub mask: Mask,
}

impl Fields for SelectionChunk {
    const SIZE: usize = Mask::SIZE;

    ghost SIZE = { selection_size };

    ghost fields_of = { selection_of };

    #[tactic(auto, unfolding(crate::specs::SelectionInformation::selection_of))]
    fn of(chunk: &[u8]) -> SelectionChunk {
        SelectionChunk {
            mask: Mask::decode(chunk, 0),
        }
    }
}

impl SelectionChunk {
    pub fn judge(self) -> Option<u32>
        ensures { result ≡ selection_fault self }
    {
        self.mask.judge(0)
    }
}
