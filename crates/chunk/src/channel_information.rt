// The channel information chunk (document 000, section 4.6).
ghost use Rattle.std.specs.Prelude.{◌≡◌, ◌≤◌};
ghost use Rattle.chunk.specs.ChannelInformation.{channel_size, channel_of, codes_fault, plane_fault};

use attributes::fault::unless;
use headers::fields::Fields;
use rect::Shape;

// Stays: the two codes are numbers, as (d) a file is decoded first and judged then, and an enum would need a case for every other number.
#[derive(Clone, Copy)]
pub struct ChannelChunk {
    // The lengths of the content as it is stored, and of the plane that it decodes to.
    pub stored: u32,
    pub plane: u32,
    pub bitmap: u16,
    pub channel: u16,
}

impl Fields for ChannelChunk {
    const SIZE: usize = 12;

    ghost SIZE = { channel_size };

    ghost fields_of = { channel_of };

    #[tactic(auto, unfolding(crate::specs::ChannelInformation::channel_of))]
    fn of(chunk: &[u8]) -> ChannelChunk {
        ChannelChunk {
            stored: endian::u32_at(chunk, 0),
            plane: endian::u32_at(chunk, 4),
            bitmap: endian::u16_at(chunk, 8),
            channel: endian::u16_at(chunk, 10),
        }
    }
}

impl ChannelChunk {
    // The codes come first; whether the channel is expected stands between them and its plane length.
    #[tactic(auto, using(attributes::proofs::Earliest::behind_fault), unfolding(crate::specs::ChannelInformation::codes_fault))]
    pub fn judge_codes(self) -> Option<u32>
        ensures { result ≡ codes_fault self }
    {
        unless(self.bitmap <= 5, 8).or(unless(self.channel <= 3, 10))
    }

    // Among planes of this shape.
    #[tactic(auto, unfolding(crate::specs::ChannelInformation::plane_fault))]
    pub fn judge_plane(self, shape: Shape) -> Option<u32>
        requires { shape.bits ≤ 8 }
        ensures { result ≡ plane_fault shape self }
    {
        unless(shape.permits(self.plane), 4)
    }
}
