// The rectangle clipped at the canvas: what both share, and where it starts in each.
ghost use Rattle.std.specs.Prelude.{◌≡◌, ◌≤◌};
ghost use Rattle.limits.specs.Limits.{side_limit};
ghost use Rattle.rect.specs.Rect.{Span};
ghost use Rattle.canvas.specs.Placing.{byte_of, on_canvas};
ghost use Rattle.canvas.specs.Blocks.{frame_of, Fit};

use crate::rows::{Rows, put_rows};
use rect::Rect;

// The canvas as a rectangle.
fn frame(width: u32, height: u32) -> Rect
    requires { (width ≤ side_limit) × (height ≤ side_limit) }
    ensures { result ≡ frame_of width height }
{
    Rect {
        left: 0,
        top: 0,
        right: width as i32,
        bottom: height as i32,
    }
}

// Where the rows of `inner` start among the bytes of `outer`, whose rows are `row` bytes long.
fn rows_in(outer: Rect, inner: Rect, row: u32) -> Rows
    requires { (Span outer.left inner.left) × (Span outer.top inner.top) }
    ensures { (result.first ≡ byte_of outer row inner.left inner.top) × (result.apart ≡ row) }
{
    let down = rect::side(outer.top, inner.top) as usize;
    let across = rect::side(outer.left, inner.left) as usize;
    let apart = row as usize;
    Rows {
        first: down * apart + across,
        apart,
    }
}

// Each pixel that the canvas and r share takes its byte of the plane, whose rows are `row` bytes long.
pub(crate) fn put(width: u32, height: u32, canvas: &mut [u8], r: Rect, plane: &[u8], row: u32)
    requires { Fit width height canvas.old r plane.now row }
    ensures { canvas.new ≡ on_canvas width row r plane.now canvas.old }
{
    let whole = frame(width, height);
    let shared = r.intersect(whole);
    if shared.is_empty() {
        return;
    }
    let on = rows_in(whole, shared, width);
    let of = rows_in(r, shared, row);
    let w = shared.width() as usize;
    let h = shared.height() as usize;
    put_rows(canvas, on, plane, of, w, h);
}
