// Rows and planes, once for every bit width and for either form of a row; and the size that an entry tells of a plane.
ghost use Rattle.std.specs.Prelude.{◌≡◌, ◌≤◌, ◌<◌};
ghost use Rattle.rect.specs.Rect.{Sized};
ghost use Rattle.rect.specs.Rows.{row_of, is_form, sides_of, makes, is_plane, row_for, size_of};

use crate::Rect;

// 4 x ceiling(w x bits / 32)
pub fn row_bytes(w: u32, bits: u32) -> u32
    requires { (w < 65536) × (bits ≤ 8) }
    ensures { (result ≡ row_of w bits) × (result ≤ 65536) }
{
    4 * ((w * bits + 31) / 32)
}

// Whether a row of w pixels may be so many bytes: the padded row or, where the short form is permitted, the width itself.
#[tactic(auto, using(crate::proofs::Forms::form_is))]
pub fn is_form(w: u32, bits: u32, short: bool, row: u32) -> bool
    requires { (w < 65536) × (bits ≤ 8) }
    ensures { result ≡ is_form w bits short row }
{
    (row == row_bytes(w, bits)) | (short & (row == w))
}

// The sides of a saved rectangle. Sixteen bits hold every permitted side, so that a plane's size is computed without a test.
#[derive(Clone, Copy)]
pub struct Sides {
    pub width: u16,
    pub height: u16,
}

// What the planes of a bitmap look like: their sides, the bits of a pixel, and whether a row may go without padding.
// Stays: (a) no invariant says that the bits are at most 8, since `shape_of` makes shapes of any bits (rect/Rows, and the definitions over it).
#[derive(Clone, Copy)]
pub struct Shape {
    pub sides: Sides,
    pub bits: u32,
    pub short: bool,
}

// The size of a plane: its sides, its bytes, and the bytes of a row.
#[repr(C)]
#[derive(Clone, Copy)]
pub struct Size {
    pub width: u32,
    pub height: u32,
    pub plane: u32,
    pub row: u32,
}

impl Size {
    // No plane.
    // Stays: (d) a constant and no `Default`: other constants are made of it, and a constant's value calls no function.
    pub const NONE: Size = Size {
        width: 0,
        height: 0,
        plane: 0,
        row: 0,
    };
}

impl Sides {
    // No rectangle.
    // Stays: (d) a constant and no `Default`, as `Size::NONE`.
    pub const NONE: Sides = Sides {
        width: 0,
        height: 0,
    };

    pub fn of(r: Rect) -> Sides
        requires { Sized r }
        ensures { result ≡ sides_of r }
    {
        Sides {
            width: r.width() as u16,
            height: r.height() as u16,
        }
    }
}

impl Shape {
    // Whether rows of so many bytes make a plane of so many: row times height.
    fn makes(self, row: u32, plane: u32) -> bool
        requires { row ≤ 65536 }
        ensures { result ≡ makes self plane row }
    {
        let sides = self.sides;
        row * (sides.height as u32) == plane
    }

    // Whether some form of a row makes a plane of so many bytes.
    #[tactic(auto, using(crate::proofs::Forms::plane_is))]
    pub fn permits(self, plane: u32) -> bool
        requires { self.bits ≤ 8 }
        ensures { result ≡ is_plane self plane }
    {
        let sides = self.sides;
        let width = sides.width as u32;
        self.makes(row_bytes(width, self.bits), plane) | (self.short & self.makes(width, plane))
    }

    // The first form of a row that makes a plane of so many bytes; 0 where none does.
    fn row(self, plane: u32) -> u32
        requires { self.bits ≤ 8 }
        ensures { result ≡ row_for self plane }
    {
        let sides = self.sides;
        let width = sides.width as u32;
        let padded = row_bytes(width, self.bits);
        if self.makes(padded, plane) {
            return padded;
        }
        if self.short & self.makes(width, plane) {
            return width;
        }
        0
    }

    // The size of a plane of so many bytes.
    #[tactic(auto, unfolding(crate::specs::Rows::size_of))]
    pub fn size(self, plane: u32) -> Size
        requires { self.bits ≤ 8 }
        ensures { result ≡ size_of self plane }
    {
        let sides = self.sides;
        Size {
            width: sides.width as u32,
            height: sides.height as u32,
            plane,
            row: self.row(plane),
        }
    }
}
