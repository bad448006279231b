// The alpha channel information chunk (document 000, section 5.11): behind the name it is laid out as a selection's.
ghost use Rattle.std.specs.Prelude.{◌≡◌};
ghost use Rattle.chunk.specs.AlphaInformation.{alpha_size, alpha_of, alpha_fault};

use crate::mask::Mask;
use headers::fields::Fields;

#[repr(C)]
#[derive(Clone, Copy, Default)]
pub struct AlphaChunk {
    pub name: [u8; 256],
    pub mask: Mask,
}

impl Fields for AlphaChunk {
    const SIZE: usize = 256 + Mask::SIZE;

    ghost SIZE = { alpha_size };

    ghost fields_of = { alpha_of };

    #[tactic(auto, unfolding(crate::specs::AlphaInformation::alpha_of))]
    fn of(chunk: &[u8]) -> AlphaChunk {
        AlphaChunk {
            name: endian::bytes_at(chunk, 0),
            mask: Mask::decode(chunk, 256),
        }
    }
}

impl AlphaChunk {
    pub fn judge(self) -> Option<u32>
        ensures { result ≡ alpha_fault self }
    {
        self.mask.judge(256)
    }
}
