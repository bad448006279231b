// Sides, by subtraction: of proper corners the difference is 0 to 65,535.
ghost use Rattle.std.specs.Prelude.{◌≡◌, ◌<◌};
ghost use Rattle.rect.specs.Rect.{Span, Proper, side_of, width_of, height_of};

use crate::Rect;

// The distance of two corners in order.
pub fn side(from: i32, to: i32) -> u32
    requires { Span from to }
    ensures { (result ≡ side_of from to) × (result < 65536) }
{
    (to - from) as u32
}

impl Rect {
    pub fn width(self) -> u32
        requires { Proper self }
        ensures { (result ≡ width_of self) × (result < 65536) }
    {
        side(self.left, self.right)
    }

    pub fn height(self) -> u32
        requires { Proper self }
        ensures { (result ≡ height_of self) × (result < 65536) }
    {
        side(self.top, self.bottom)
    }
}
