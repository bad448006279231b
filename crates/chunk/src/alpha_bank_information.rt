// The alpha bank information chunk (document 000, section 5.11): how many alpha channels follow. Any number is permitted.
ghost use Rattle.chunk.specs.AlphaBankInformation.{alpha_bank_size, alpha_bank_of};

use headers::fields::Fields;

#[derive(Clone, Copy)]
pub struct AlphaBankChunk {
    pub count: u16,
}

impl Fields for AlphaBankChunk {
    const SIZE: usize = 2;

    ghost SIZE = { alpha_bank_size };

    ghost fields_of = { alpha_bank_of };

    #[tactic(auto, unfolding(crate::specs::AlphaBankInformation::alpha_bank_of))]
    fn of(chunk: &[u8]) -> AlphaBankChunk {
        AlphaBankChunk {
            count: endian::u16_at(chunk, 0),
        }
    }
}
