// The pixels that two rectangles share, for any 32-bit corners.
ghost use Rattle.std.specs.Prelude.{◌≡◌};
ghost use Rattle.rect.specs.Shared.{framed_of, shared_of};

use crate::Rect;

// The rectangle of four sides, or 0,0,0,0 where it has no pixel.
fn framed(left: i32, top: i32, right: i32, bottom: i32) -> Rect
    ensures { result ≡ framed_of left top right bottom }
{
    if left < right && top < bottom {
        return Rect {
            left,
            top,
            right,
            bottom,
        };
    }
    Rect::default()
}

impl Rect {
    pub fn intersect(self, other: Rect) -> Rect
        ensures { result ≡ shared_of self other }
    {
        framed(
            self.left.max(other.left),
            self.top.max(other.top),
            self.right.min(other.right),
            self.bottom.min(other.bottom),
        )
    }
}
