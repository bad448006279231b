// The rules of a rectangle. A test joins its parts by `&` and `|`, which run both sides: its value is then the definition's own.
ghost use Rattle.std.specs.Prelude.{◌≡◌};
ghost use Rattle.rect.specs.Rect.{is_proper, is_empty, is_inside, is_within, is_saved};

use crate::Rect;
use limits::{LEAST, MOST, SIDE};

impl Rect {
    // Coordinates in range, and in order on both axes.
    pub fn is_proper(self) -> bool
        ensures { result ≡ is_proper self }
    {
        (LEAST <= self.left)
            & (self.left <= self.right)
            & (self.right <= MOST)
            & (LEAST <= self.top)
            & (self.top <= self.bottom)
            & (self.bottom <= MOST)
    }

    // Of corners in order: equal on an axis.
    pub fn is_empty(self) -> bool
        ensures { result ≡ is_empty self }
    {
        (self.right <= self.left) | (self.bottom <= self.top)
    }

    pub fn is_inside(self, border: Rect) -> bool
        ensures { result ≡ is_inside self border }
    {
        (border.left <= self.left)
            & (border.top <= self.top)
            & (self.right <= border.right)
            & (self.bottom <= border.bottom)
    }

    // Proper, with sides within the limit: what a plane is sized by.
    pub fn is_within(self) -> bool
        ensures { result ≡ is_within self }
    {
        if self.is_proper() {
            return (self.width() <= SIDE) & (self.height() <= SIDE);
        }
        false
    }

    // A saved rectangle: within the limits, and inside its own border unless empty.
    pub fn is_saved(self, border: Rect) -> bool
        ensures { result ≡ is_saved self border }
    {
        self.is_within() & (self.is_empty() | self.is_inside(border))
    }
}
