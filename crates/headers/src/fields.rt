// What a header or a chunk of information is made of: so many bytes, and in them its fields at their offsets.
ghost use Rattle.std.specs.Prelude.{ℕ, List, ◌≡◌, ◌+◌, ◌≤◌, length};
ghost use Rattle.laws.specs.Lists.{part};

pub trait Fields: Sized {
    // In bytes.
    const SIZE: usize;

    ghost SIZE: { ℕ };

    // What bytes mean that begin with the fields.
    ghost fields_of: { List ℕ → Self };

    // The fields, at their offsets.
    fn of(bytes: &[u8]) -> Self
        requires { SIZE ≤ length bytes.now }
        ensures { result ≡ fields_of bytes.now };

    // Those at a place of a file.
    #[tactic(auto, using(laws::proofs::Part::lent))]
    fn decode(file: &[u8], at: usize) -> Self
        requires { at + SIZE ≤ length file.now }
        ensures { result ≡ fields_of (part file.now at SIZE) }
    {
        Self::of(&file[at..at + Self::SIZE])
    }
}
