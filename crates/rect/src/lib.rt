// Rectangles of a file (document 01, "Units"): four signed corners. Their rules, their sides, the rows and planes that they size, and the
// pixels that two of them share.

#![tactic(auto)]

mod intersection;
mod planes;
mod rules;
mod sides;

ghost use Rattle.std.specs.Prelude.{◌≡◌, ◌+◌, ◌≤◌, length};
ghost use Rattle.rect.specs.Rect.{rect_at};

pub use planes::{Shape, Sides, Size, is_form};
pub use sides::side;

// RECT of document 000, section 4.2.
#[repr(C)]
#[derive(Clone, Copy, Default)]
pub struct Rect {
    pub left: i32,
    pub top: i32,
    pub right: i32,
    pub bottom: i32,
}

impl Rect {
    pub const SIZE: usize = 16;

    // Stays: with an offset, as (d) it is a part of a chunk, whose definition tells each place from the chunk's beginning.
    #[tactic(auto, unfolding(crate::specs::Rect::rect_at))]
    pub fn decode(file: &[u8], at: usize) -> Rect
        requires { at + Rect.SIZE ≤ length file.now }
        ensures { result ≡ rect_at file.now at }
    {
        Rect {
            left: endian::i32_at(file, at),
            top: endian::i32_at(file, at + 4),
            right: endian::i32_at(file, at + 8),
            bottom: endian::i32_at(file, at + 12),
        }
    }
}
