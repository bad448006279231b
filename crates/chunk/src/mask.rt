// What the chunks of a selection and of an alpha channel have alike: two rectangles, and how many bitmaps and channels follow, which is one of
// each (document 000, sections 5.10 and 5.11).
ghost use Rattle.std.specs.Prelude.{◌≡◌, ◌+◌, ◌≤◌, length};
ghost use Rattle.chunk.specs.Mask.{mask_at, mask_fault};

use crate::area::Area;
use attributes::fault::unless;

#[repr(C)]
#[derive(Clone, Copy, Default)]
pub struct Mask {
    pub area: Area,
    pub bitmaps: u16,
    pub channels: u16,
}

impl Mask {
    pub const SIZE: usize = Area::SIZE + 4;

    // Stays: with an offset, as (d) it is a part of a chunk, whose definition tells each place from the chunk's beginning.
    #[tactic(auto, unfolding(crate::specs::Mask::mask_at))]
    pub fn decode(file: &[u8], at: usize) -> Mask
        requires { at + Mask.SIZE ≤ length file.now }
        ensures { result ≡ mask_at file.now at }
    {
        Mask {
            area: Area::decode(file, at),
            bitmaps: endian::u16_at(file, at + 32),
            channels: endian::u16_at(file, at + 34),
        }
    }

    // The earliest field that is not permitted, in a chunk that has these from an offset on.
    #[tactic(auto, using(attributes::proofs::Earliest::behind_fault), unfolding(crate::specs::Mask::mask_fault))]
    pub fn judge(self, from: u32) -> Option<u32>
        requires { from ≤ 256 }
        ensures { result ≡ mask_fault from self }
    {
        let area = self.area;
        unless(area.border.is_proper(), from)
            .or(unless(area.saved.is_saved(area.border), from + 16))
            .or(unless(self.bitmaps == 1, from + 32))
            .or(unless(self.channels == 1, from + 34))
    }
}
