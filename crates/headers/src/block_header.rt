// The block header (document 000, section 4.4).
ghost use Rattle.std.specs.Prelude.{◌≡◌};
ghost use Rattle.headers.specs.BlockHeader.{block_header_size, block_header_of, is_marked};

use crate::fields::Fields;

// 7E 42 4B 00, the least byte first.
pub const MARK: u32 = 0x004B427E;

#[derive(Clone, Copy)]
pub struct BlockHeader {
    pub mark: u32,
    pub id: u16,
    // The length of the first chunk.
    pub initial: u32,
    // The length of the block, not counting the header.
    pub total: u32,
}

impl Fields for BlockHeader {
    const SIZE: usize = 14;

    ghost SIZE = { block_header_size };

    ghost fields_of = { block_header_of };

    #[tactic(auto, unfolding(crate::specs::BlockHeader::block_header_of))]
    fn of(header: &[u8]) -> BlockHeader {
        BlockHeader {
            mark: endian::u32_at(header, 0),
            id: endian::u16_at(header, 4),
            initial: endian::u32_at(header, 6),
            total: endian::u32_at(header, 10),
        }
    }
}

impl BlockHeader {
    #[tactic(auto, unfolding(crate::specs::BlockHeader::is_marked, endian::specs::Number::le))]
    pub fn marked(self) -> bool
        ensures { result ≡ is_marked self }
    {
        self.mark == MARK
    }
}
