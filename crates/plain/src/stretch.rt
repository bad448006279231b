// Where plain blocks are looked for, and what was passed there.
ghost use Rattle.std.specs.Prelude.{◌≤◌, ◌<◌, ◌^◌, length};
ghost use Rattle.limits.specs.Limits.{input_limit};

// In an input within the limit, from a place up to the parent's end, with so many entries listed of those that there is room for.
#[derive(Clone, Copy)]
pub struct Stretch<'a> {
    pub input: &'a [u8],
    pub at: usize,
    pub end: usize,
    pub count: usize,
    pub room: usize,
    pub ghost small: { length input.now ≤ input_limit },
    pub ghost order: { at ≤ end },
    pub ghost near: { end < 2 ^ 40 },
    pub ghost fits: { count ≤ room },
}

// Where the blocks that were passed ended, and how many entries were listed by then.
#[derive(Clone, Copy)]
pub struct Passed {
    pub at: usize,
    pub count: usize,
}

impl Stretch<'_> {
    // How far a plain block may go: both the parent and the input go on to here.
    pub(crate) fn reach(self) -> usize
        ensures { (result ≤ length self.entry.input.now) × (result ≤ self.entry.end) }
    {
        self.end.min(self.input.len())
    }
}
