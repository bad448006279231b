// What reading answers; `paper` gives each its number, place and bytes.

// 0: the whole plane is written, out of so many stored bytes.
#[derive(Clone, Copy)]
pub struct Read {
    pub stored: usize,
    pub plane: usize,
}

// Why nothing is written.
#[derive(Clone, Copy)]
pub enum PlaneError {
    // 20: the destination is shorter than the plane
    NoRoom,
    // 21: count 128
    Count128 { place: usize },
    // 22: packet data missing, or the stream at its end and the plane not full
    Missing { place: usize },
    // 23: more than the plane has left
    TooMuch { place: usize },
    // 24: a code that is not 0 or 1
    UnknownCode,
    // 25: a raw length that differs from the plane length
    RawLength,
    // 26: a plane length over the limit
    OverLimit,
    // 27: a stored part that is not inside the input
    Outside,
}

pub type PlaneAnswer = Result<Read, PlaneError>;
