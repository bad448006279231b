// The layer information chunk (document 000, section 5.9).
ghost use Rattle.std.specs.Prelude.{◌≡◌, ◌+◌, ◌≤◌, ◌&&◌, eqb, leb, length};
ghost use Rattle.attributes.specs.Depth.{colour_channels};
ghost use Rattle.chunk.specs.LayerInformation.{layer_size, flag_at, layer_of, layer_fault};

use crate::area::Area;
use attributes::depth;
use attributes::fault::unless;
use headers::fields::Fields;

// Stays: the layer type and the blend mode are numbers, and the number of valid ranges stands beside them, as (a) C reads them in this struct
// (psp.h).
#[repr(C)]
#[derive(Clone, Copy, Default)]
pub struct LayerChunk {
    pub name: [u8; 256],
    // The layer type.
    pub kind: u8,
    pub image: Area,
    pub opacity: u8,
    pub blending: u8,
    pub visible: bool,
    pub protected: bool,
    // The link group identifier.
    pub group: u8,
    pub mask: Area,
    pub linked: bool,
    pub disabled: bool,
    pub inverted: bool,
    // How many of the five blend ranges are valid; their source and destination values, four bytes each.
    pub blends: u16,
    pub ranges: [u8; 40],
    pub bitmaps: u16,
    pub channels: u16,
}

impl Fields for LayerChunk {
    const SIZE: usize = 375;

    ghost SIZE = { layer_size };

    ghost fields_of = { layer_of };

    #[tactic(auto, unfolding(crate::specs::LayerInformation::layer_of))]
    fn of(chunk: &[u8]) -> LayerChunk {
        LayerChunk {
            name: endian::bytes_at(chunk, 0),
            kind: endian::u8_at(chunk, 256),
            image: Area::decode(chunk, 257),
            opacity: endian::u8_at(chunk, 289),
            blending: endian::u8_at(chunk, 290),
            visible: flag_at(chunk, 291),
            protected: flag_at(chunk, 292),
            group: endian::u8_at(chunk, 293),
            mask: Area::decode(chunk, 294),
            linked: flag_at(chunk, 326),
            disabled: flag_at(chunk, 327),
            inverted: flag_at(chunk, 328),
            blends: endian::u16_at(chunk, 329),
            ranges: endian::bytes_at(chunk, 331),
            bitmaps: endian::u16_at(chunk, 371),
            channels: endian::u16_at(chunk, 373),
        }
    }
}

impl LayerChunk {
    // The earliest field that is not permitted in a layer of an image of this depth. A rule between two fields counts at the later one.
    #[tactic(auto, using(attributes::proofs::Earliest::behind_fault), unfolding(crate::specs::LayerInformation::layer_fault))]
    pub fn judge(self, depth: u16) -> Option<u32>
        ensures { result ≡ layer_fault depth self }
    {
        let image = self.image;
        let mask = self.mask;
        unless(self.kind <= 1, 256)
            .or(unless(image.border.is_proper(), 257))
            .or(unless(image.saved.is_saved(image.border), 273))
            .or(unless(mask.border.is_proper(), 294))
            .or(unless(mask.saved.is_saved(mask.border), 310))
            .or(unless(self.blends <= 5, 329))
            .or(unless(self.bitmaps_permitted(), 371))
            .or(unless(self.channels_agree(depth), 373))
    }

    fn bitmaps_permitted(&self) -> bool
        ensures { result ≡ (leb 1 self.now.bitmaps && leb self.now.bitmaps 3) }
    {
        matches!(self.bitmaps, 1..=3)
    }

    // Channels are c + b - 1, where c is the depth's.
    fn channels_agree(&self, depth: u16) -> bool
        ensures { result ≡ eqb (self.now.channels + 1) (colour_channels depth + self.now.bitmaps) }
    {
        u32::from(self.channels) + 1 == depth::channels(depth) + u32::from(self.bitmaps)
    }
}

// A flag is off (zero) or on.
fn flag_at(file: &[u8], at: usize) -> bool
    requires { at + 1 ≤ length file.now }
    ensures { result ≡ flag_at file.now at }
{
    endian::u8_at(file, at) != 0
}
