// The general image attributes chunk (document 000, section 5.3).
ghost use Rattle.std.specs.Prelude.{◌≡◌, ◌||◌, ◌&&◌, not, eqb, leb};
ghost use Rattle.limits.specs.Limits.{layer_limit};
ghost use Rattle.attributes.specs.ImageAttributes.{image_size, image_of, is_side, is_paletted, image_fault};

use crate::depth;
use crate::fault::unless;
use crate::resolution::Resolution;
use headers::fields::Fields;
use limits::{LAYERS, SIDE};

// Stays: compression, depth and grey are numbers, as (a) C reads them in this struct (psp.h), and whatever a file has there fits until it is
// judged.
#[repr(C)]
#[derive(Clone, Copy, Default)]
pub struct ImageChunk {
    pub width: i32,
    pub height: i32,
    // The 64 bits of the resolution's value: a NaN's payload does not travel in an f64, and metric 0 permits one.
    pub bits: u64,
    pub resolution: Resolution,
    pub compression: u16,
    pub depth: u16,
    pub planes: u16,
    pub colours: u32,
    pub grey: u8,
    pub total: u32,
    pub active: i32,
    pub layers: u16,
}

impl Fields for ImageChunk {
    const SIZE: usize = 38;

    ghost SIZE = { image_size };

    ghost fields_of = { image_of };

    #[tactic(auto, using(endian::proofs::Signed::back), unfolding(crate::specs::ImageAttributes::image_of))]
    fn of(chunk: &[u8]) -> ImageChunk {
        ImageChunk {
            width: endian::i32_at(chunk, 0),
            height: endian::i32_at(chunk, 4),
            bits: endian::u64_at(chunk, 8),
            resolution: Resolution::decode(chunk, 8),
            compression: endian::u16_at(chunk, 17),
            depth: endian::u16_at(chunk, 19),
            planes: endian::u16_at(chunk, 21),
            colours: endian::u32_at(chunk, 23),
            grey: endian::u8_at(chunk, 27),
            total: endian::u32_at(chunk, 28),
            active: endian::i32_at(chunk, 32),
            layers: endian::u16_at(chunk, 36),
        }
    }
}

impl ImageChunk {
    // The earliest field that is not permitted. A rule between two fields counts at the later one.
    #[tactic(auto, using(crate::proofs::Earliest::behind_fault, endian::proofs::Signed::back), unfolding(crate::specs::ImageAttributes::image_fault))]
    pub fn judge(self) -> Option<u32>
        ensures { result ≡ image_fault self }
    {
        unless(side(self.width), 0)
            .or(unless(side(self.height), 4))
            .or(unless(self.resolution.permitted(), 16))
            .or(unless(self.compression <= 2, 17))
            .or(unless(depth::permitted(self.depth), 19))
            .or(unless(self.planes == 1, 21))
            .or(unless(depth::full(self.colours, self.depth), 23))
            .or(unless(self.grey_permitted(), 27))
            .or(unless(self.layers_permitted(), 36))
    }

    // Grey goes with depth 8.
    fn grey_permitted(self) -> bool
        ensures { result ≡ (eqb self.grey 0 || (eqb self.grey 1 && eqb self.depth 8)) }
    {
        self.grey == 0 || self.grey == 1 && self.depth == 8
    }

    fn paletted(self) -> bool
        ensures { result ≡ is_paletted self }
    {
        self.depth < 24 && self.grey == 0
    }

    // A paletted image has one layer.
    fn layers_permitted(self) -> bool
        ensures { result ≡ (leb 1 self.layers && leb self.layers layer_limit && (not (is_paletted self) || eqb self.layers 1)) }
    {
        let layers = u32::from(self.layers);
        1 <= layers && layers <= LAYERS && (!self.paletted() || layers == 1)
    }
}

fn side(z: i32) -> bool
    ensures { result ≡ is_side z }
{
    1 <= z && z <= SIDE as i32
}
