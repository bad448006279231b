// An answer as document 01 tells it, in numbers.
ghost use Rattle.std.specs.Prelude.{◌≡◌};
ghost use Rattle.packet.specs.Reading.{refusal, paper};

use crate::{PlaneAnswer, PlaneError};

// The number, the place inside the stored channel, and the bytes written.
// Stays: a number beside values, as (a) C has no Result (psp.h).
#[repr(C)]
#[derive(Clone, Copy)]
pub struct Plane {
    pub number: u32,
    pub place: usize,
    pub bytes: usize,
}

// Stays: (d) a number as an argument, so that the numbers of `paper` stand in one column: by two conversions each error would be matched twice.
fn refused(number: u32, place: usize) -> Plane
    ensures { result ≡ refusal number place }
{
    Plane {
        number,
        place,
        bytes: 0,
    }
}

impl From<PlaneAnswer> for Plane {
    ghost from_gives = { λ answer told. told ≡ paper answer };

    fn from(answer: PlaneAnswer) -> Plane {
        match answer {
            Ok(read) => Plane {
                number: 0,
                place: read.stored,
                bytes: read.plane,
            },
            Err(PlaneError::NoRoom) => refused(20, 0),
            Err(PlaneError::Count128 { place }) => refused(21, place),
            Err(PlaneError::Missing { place }) => refused(22, place),
            Err(PlaneError::TooMuch { place }) => refused(23, place),
            Err(PlaneError::UnknownCode) => refused(24, 0),
            Err(PlaneError::RawLength) => refused(25, 0),
            Err(PlaneError::OverLimit) => refused(26, 0),
            Err(PlaneError::Outside) => refused(27, 0),
        }
    }
}
