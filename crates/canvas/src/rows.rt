// A block of rows, copied out of a plane into a canvas.
ghost use Rattle.std.specs.Prelude.{◌≡◌, ◌+◌, ◌*◌, ◌<◌, ◌≤◌, ◌^◌, length};
ghost use Rattle.canvas.specs.Blocks.{Room, rows_of};

// Where the rows of a block start: the first at a byte, and each so many bytes behind the one before.
#[derive(Clone, Copy)]
pub(crate) struct Rows {
    pub first: usize,
    pub apart: usize,
}

impl Rows {
    fn start(self, i: usize) -> usize
        requires { self.first + i * self.apart < 2 ^ 64 }
        ensures { result ≡ self.first + i * self.apart }
    {
        self.first + i * self.apart
    }
}

// Bytes of a local block, which is long enough for the rows of most planes.
const BLOCK: usize = 1024;

// One row. It is read into a local block before a byte is written, so that the compiler need not look whether the slices overlap; beside a
// longer row that look costs nothing.
fn copy_row(row: &[u8], to: &mut [u8])
    requires { length row.now ≡ length to.old }
    ensures { to.new ≡ row.now }
{
    if row.len() <= BLOCK {
        let mut block = [0; BLOCK];
        let short = &mut block[..row.len()];
        short.copy_from_slice(row);
        to.copy_from_slice(short);
    } else {
        to.copy_from_slice(row);
    }
}

// h rows of w bytes each go from their places in the plane to those on the canvas.
pub(crate) fn put_rows(canvas: &mut [u8], on: Rows, plane: &[u8], of: Rows, w: usize, h: usize)
    requires { Room plane.now of.apart of.first w canvas.old on.apart on.first h }
    ensures { canvas.new ≡ rows_of plane.now of.apart of.first w canvas.old on.apart on.first h }
{
    for i in 0..h {
        let to = on.start(i);
        let from = of.start(i);
        copy_row(&plane[from..from + w], &mut canvas[to..to + w]);
    }
}
