// Rectangles for C: a plane placed on a canvas, and the pixels that two rectangles share.
ghost use Rattle.std.specs.Prelude.{◌≡◌};
ghost use Rattle.canvas.specs.Placing.{placed};
ghost use Rattle.rect.specs.Shared.{shared_of};

use rect::Rect;

// Places an 8-bit plane of rectangle r, whose rows are `row` bytes long. A refusal leaves the canvas untouched.
#[unsafe(no_mangle)]
pub extern "C" fn psp_place(
    width: u32,
    height: u32,
    canvas: &mut [u8],
    r: Rect,
    plane: &[u8],
    row: u32,
) -> u32
    ensures { record { told = result; dest = canvas.new } ≡ placed width height canvas.old r plane.now row }
{
    canvas::number(canvas::place(width, height, canvas, r, plane, row))
}

#[unsafe(no_mangle)]
pub extern "C" fn psp_intersect(a: Rect, b: Rect) -> Rect
    ensures { result ≡ shared_of a b }
{
    a.intersect(b)
}
