// The numbers of answers, for a caller that has no use for the enum.
ghost use Rattle.std.specs.Prelude.{◌≡◌};
ghost use Rattle.canvas.specs.Placing.{refusal, place_paper};

use crate::PlaceError;

impl From<PlaceError> for u32 {
    ghost from_gives = { λ error number. number ≡ refusal error };

    fn from(error: PlaceError) -> u32 {
        match error {
            PlaceError::BadCanvas => 40,
            PlaceError::BadRect => 41,
            PlaceError::BadPlane => 42,
        }
    }
}

// 0, or the refusal's number.
// Stays: (d) no `From`: `Result` and `u32` are both foreign, so no crate may write it.
pub fn number(answer: Result<(), PlaceError>) -> u32
    ensures { result ≡ place_paper answer }
{
    match answer {
        Ok(()) => 0,
        Err(error) => error.into(),
    }
}
