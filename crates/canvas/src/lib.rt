// Placing a plane on a lent canvas (document 01, Canvas and palette): each clipped row goes into the part of the canvas that it covers. The one
// entry point, `place`, has no `requires`, and it tests all before it writes one byte.

#![tactic(auto)]

mod clip;
mod numbers;
mod placer;
mod rows;

pub use numbers::number;
pub use placer::place;

// Why a plane is not placed; `refusal` gives each its number.
#[derive(Clone, Copy, Debug, PartialEq, Eq)]
pub enum PlaceError {
    // 40: no such canvas
    BadCanvas,
    // 41: no such rectangle
    BadRect,
    // 42: a row or a plane that is not the rectangle's
    BadPlane,
}
