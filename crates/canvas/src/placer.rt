// The entry point.
ghost use Rattle.std.specs.Prelude.{◌≡◌, length};
ghost use Rattle.rect.specs.Rect.{Sized};
ghost use Rattle.canvas.specs.Placing.{is_canvas, is_plane_of, place_result, placed};

use crate::PlaceError;
use crate::clip::put;
use limits::SIDE;
use rect::Rect;

// Sides within the limit, and a length that is their product, which 64 bits hold for any two sides.
fn is_canvas(width: u32, height: u32, canvas: &[u8]) -> bool
    ensures { result ≡ is_canvas width height (length canvas.now) }
{
    (1 <= width)
        & (width <= SIDE)
        & (1 <= height)
        & (height <= SIDE)
        & (canvas.len() == (width as usize) * (height as usize))
}

// A row in one of its two forms, and as many rows as the rectangle is high: a product that 64 bits hold for any row.
fn is_plane(r: Rect, row: u32, plane: &[u8]) -> bool
    requires { Sized r }
    ensures { result ≡ is_plane_of r row (length plane.now) }
{
    rect::is_form(r.width(), 8, true, row) & (plane.len() == (row as usize) * (r.height() as usize))
}

// Places an 8-bit plane whose rows are `row` bytes long. 40: no such canvas. 41: no such rectangle. 42: a row or a plane that is not the
// rectangle's. A refusal leaves the canvas untouched.
pub fn place(
    width: u32,
    height: u32,
    canvas: &mut [u8],
    r: Rect,
    plane: &[u8],
    row: u32,
) -> Result<(), PlaceError>
    ensures { place_result result canvas.new ≡ placed width height canvas.old r plane.now row }
{
    if !is_canvas(width, height, canvas) {
        return Err(PlaceError::BadCanvas);
    }
    if !r.is_within() {
        return Err(PlaceError::BadRect);
    }
    if !is_plane(r, row, plane) {
        return Err(PlaceError::BadPlane);
    }
    put(width, height, canvas, r, plane, row);
    Ok(())
}
