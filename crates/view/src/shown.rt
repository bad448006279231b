// What is shown, by name; C gets it in numbers (`Part`), and Rattle as the slice that it is.
ghost use Rattle.std.specs.Prelude.{◌≡◌, ◌+◌, ◌≤◌, length};
ghost use Rattle.view.specs.Shown.{PartOf};

// So many bytes of a slice, from a place on.
#[derive(Clone, Copy)]
pub struct Span {
    pub start: usize,
    pub length: usize,
}

impl Span {
    // Those bytes.
    pub(crate) fn of<'a>(self, slice: &'a [u8]) -> &'a [u8]
        requires { self.start + self.length ≤ length slice.now }
        ensures { PartOf slice.entry self.start self.length result }
    {
        &slice[self.start..self.start + self.length]
    }
}

// A palette is a part of the input, or all of the caller's ramp.
#[derive(Clone, Copy)]
pub enum Shown {
    Input(Span),
    WholeRamp,
}
