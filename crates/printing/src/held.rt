// A writer that holds bytes back until it is full or flushed, so that a line is not one write for each of its numbers.
// Stays: (a) std's `BufWriter` takes its buffer from an allocator, and nothing here allocates.
ghost use Rattle.std.specs.Prelude.{◌≤◌};

use std::io;
use std::io::Write;

const ROOM: usize = 4096;

#[derive(Drop)]
pub struct Held<'a, P> {
    to: &'a P,
    bytes: [u8; ROOM],
    held: usize,
    ghost in_bounds: { held ≤ 4096 },
}

impl<'a, P: Print> Held<'a, P> {
    pub fn new(to: &'a P) -> Held<'a, P> {
        Held {
            to,
            bytes: [0; ROOM],
            held: 0,
        }
    }
}

impl<P: Print> Write for Held<'_, P> {
    // Takes as many bytes as there is room for, and none only of none.
    fn write(&mut self, s: &[u8]) -> io::Result<usize> {
        if self.held == ROOM {
            self.flush()?;
        }
        let at = self.held;
        let taken = s.len().min(ROOM - at);
        self.bytes[at..at + taken].copy_from_slice(&s[..taken]);
        self.held = at + taken;
        Ok(taken)
    }

    // What a failure leaves unwritten is lost.
    fn flush(&mut self) -> io::Result<()> {
        let held = self.held;
        self.held = 0;
        self.to.write_all(&self.bytes[..held])
    }
}
