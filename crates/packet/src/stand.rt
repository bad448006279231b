// How far a pass over a stream has come.
ghost use Rattle.std.specs.Prelude.{◌≤◌, length};

// A stream and the length of its plane; the place of the next packet in the stream, and the bytes of the plane that the packets before it give.
#[derive(Clone, Copy)]
pub struct Stand<'a> {
    pub stream: &'a [u8],
    pub plane: usize,
    pub at: usize,
    pub done: usize,
    pub ghost within: { (at ≤ length stream.now) × (done ≤ plane) },
}

impl<'a> Stand<'a> {
    ghost use Rattle.std.specs.Prelude.{◌≡◌};
    ghost use Rattle.packet.specs.Stream.{meaning};
    ghost use Rattle.packet.specs.Standing.{ahead};

    // Before the first packet.
    pub fn first(stream: &'a [u8], plane: usize) -> Self
        ensures { (result.stream.now ≡ stream.now) × (result.plane ≡ plane) × (result.done ≡ 0) × (ahead result ≡ meaning stream.now plane) × (result.at ≡ 0) }
    {
        Stand {
            stream,
            plane,
            at: 0,
            done: 0,
        }
    }

    // Elsewhere in the same stream.
    pub fn moved(self, at: usize, done: usize) -> Self
        requires { (at ≤ length self.stream.now) × (done ≤ self.plane) }
        ensures { (result.stream.now ≡ self.entry.stream.now) × (result.plane ≡ self.entry.plane) × (result.at ≡ at) × (result.done ≡ done) }
    {
        let Stand { stream, plane, .. } = self;
        Stand {
            stream,
            plane,
            at,
            done,
        }
    }
}
