// The color palette information chunk (document 000, section 4.5).
ghost use Rattle.std.specs.Prelude.{◌≡◌};
ghost use Rattle.chunk.specs.ColorPalette.{palette_size, palette_of, palette_fault};

use attributes::depth;
use attributes::fault::unless;
use headers::fields::Fields;

#[derive(Clone, Copy)]
pub struct PaletteChunk {
    pub count: u32,
}

impl Fields for PaletteChunk {
    const SIZE: usize = 4;

    ghost SIZE = { palette_size };

    ghost fields_of = { palette_of };

    #[tactic(auto, unfolding(crate::specs::ColorPalette::palette_of))]
    fn of(chunk: &[u8]) -> PaletteChunk {
        PaletteChunk {
            count: endian::u32_at(chunk, 0),
        }
    }
}

impl PaletteChunk {
    // In an image of this depth.
    #[tactic(auto, unfolding(crate::specs::ColorPalette::palette_fault))]
    pub fn judge(self, depth: u16) -> Option<u32>
        ensures { result ≡ palette_fault depth self }
    {
        unless(1 <= self.count && depth::within(self.count, depth), 0)
    }
}
