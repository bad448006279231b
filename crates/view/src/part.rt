// C gets no slice back, so what is shown goes to it in numbers: an answer, which of the lent slices, where the part starts, its length.
ghost use Rattle.std.specs.Prelude.{◌≡◌};
ghost use Rattle.view.specs.Shown.{of_input, of_ramp, refused, part_told, name_told};

use crate::not_shown::NotShown;
use crate::shown::{Shown, Span};

// The bytes of a grey ramp: 256 entries of four.
pub const RAMP: usize = 1024;

// Stays: a number beside values, as (a) C has no Result (psp.h).
#[repr(C)]
#[derive(Clone, Copy)]
pub struct Part {
    pub number: u32,
    // 0 the input, 1 the ramp.
    pub which: u32,
    pub start: usize,
    pub length: usize,
}

impl Part {
    pub fn of_input(start: usize, length: usize) -> Part
        ensures { result ≡ of_input start length }
    {
        Part {
            number: 0,
            which: 0,
            start,
            length,
        }
    }

    // All of a ramp.
    pub fn of_ramp() -> Part
        ensures { result ≡ of_ramp }
    {
        Part {
            number: 0,
            which: 1,
            start: 0,
            length: RAMP,
        }
    }

    // Of a refusal nothing is shown, at the input's start.
    fn refused(not_shown: NotShown) -> Part
        ensures { result ≡ refused not_shown }
    {
        Part {
            number: not_shown.into(),
            which: 0,
            start: 0,
            length: 0,
        }
    }
}

impl From<Result<Shown, NotShown>> for Part {
    ghost from_gives = { λ seen part. part ≡ part_told seen };

    fn from(seen: Result<Shown, NotShown>) -> Part {
        match seen {
            Ok(Shown::Input(span)) => Part::of_input(span.start, span.length),
            Ok(Shown::WholeRamp) => Part::of_ramp(),
            Err(not_shown) => Part::refused(not_shown),
        }
    }
}

// A name is always of the input.
impl From<Result<Span, NotShown>> for Part {
    ghost from_gives = { λ seen part. part ≡ name_told seen };

    fn from(seen: Result<Span, NotShown>) -> Part {
        match seen {
            Ok(span) => Part::of_input(span.start, span.length),
            Err(not_shown) => Part::refused(not_shown),
        }
    }
}
