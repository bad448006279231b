// An answer as document 01 tells it, in numbers.
ghost use Rattle.std.specs.Prelude.{◌≡◌};
ghost use Rattle.packer.specs.Packing.{refusal, paper};

use crate::PackError;

// The number, and the bytes of the packed form.
// Stays: a number beside values, as (a) C has no Result (psp.h).
#[repr(C)]
#[derive(Clone, Copy)]
pub struct Packed {
    pub number: u32,
    pub length: usize,
}

impl From<PackError> for u32 {
    ghost from_gives = { λ error number. number ≡ refusal error };

    fn from(error: PackError) -> u32 {
        match error {
            PackError::NoRoom => 30,
            PackError::OverLimit => 31,
        }
    }
}

impl From<Result<usize, PackError>> for Packed {
    ghost from_gives = { λ answer packed. packed ≡ paper answer };

    fn from(answer: Result<usize, PackError>) -> Packed {
        match answer {
            Ok(length) => Packed { number: 0, length },
            Err(error) => Packed {
                number: error.into(),
                length: 0,
            },
        }
    }
}
