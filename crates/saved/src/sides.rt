// The version of a table (document 02, request ix), by the sides of its entries, as they stand in a table or in a file.
ghost use Rattle.std.specs.Prelude.{◌||◌, ◌≡◌, ℕ, ◌/◌, ◌<◌, List, ltb, length, get_or};
ghost use Rattle.laws.specs.Choice.{pick};
ghost use Rattle.saved.specs.Version.{number_of, IsVersionOf};
ghost use Rattle.saved.specs.Saved.{old_side, version_of, numbers_at};

use endian::big;
use entry::Entry;

// The greatest side that is not large.
const SIDE: u32 = 4096;

// Width and height among the numbers of an entry.
const WIDTH: usize = 10;

const HEIGHT: usize = 11;

// The versions: without a large side, and with one. Its number is the byte that a file has.
#[derive(Clone, Copy, PartialEq, Eq)]
pub(crate) enum Version {
    First = 1,
    Second = 2,
}

// A byte that no version has.
#[derive(Clone, Copy)]
pub(crate) struct UnknownVersion(pub(crate) u8);

impl TryFrom<u8> for Version {
    type Error = UnknownVersion;

    ghost try_from_gives = { IsVersionOf };

    fn try_from(number: u8) -> Result<Self, UnknownVersion> {
        match number {
            1 => Ok(Version::First),
            2 => Ok(Version::Second),
            _ => Err(UnknownVersion(number)),
        }
    }
}

impl From<Version> for u8 {
    ghost from_gives = { λ version number. number ≡ number_of version };

    fn from(version: Version) -> u8 {
        version as u8
    }
}

// A side is large.
fn is_large(width: u32, height: u32) -> bool
    ensures { result ≡ (ltb old_side width || ltb old_side height) }
{
    (SIDE < width) | (SIDE < height)
}

// The version by whether a side is large.
#[tactic(auto, unfolding(laws::specs::Choice::pick))]
fn first_or_second(large: bool) -> Version
    ensures { number_of result ≡ pick large 2 1 }
{
    if large {
        return Version::Second;
    }
    Version::First
}

// The numbers of a table, wherever they stand.
pub(crate) trait Numbers {
    ghost numbers: { Self → List ℕ };

    fn count(&self) -> usize
        ensures { result ≡ length (numbers self.now) };

    fn number(&self, i: usize) -> u32
        requires { i < length (numbers self.now) }
        ensures { result ≡ get_or (numbers self.now) i 0 };
}

impl Numbers for &[u32] {
    ghost numbers = { λ table. table.now };

    fn count(&self) -> usize {
        self.len()
    }

    fn number(&self, i: usize) -> u32 {
        self[i]
    }
}

// Those that stand in a file, four bytes each.
#[derive(Clone, Copy)]
pub(crate) struct InBytes<'a>(pub(crate) &'a [u8]);

impl Numbers for InBytes<'_> {
    ghost numbers = { λ file. numbers_at (length file.0.now / 4) file.0.now 0 };

    fn count(&self) -> usize {
        self.0.len() / 4
    }

    fn number(&self, i: usize) -> u32 {
        big::u32_at(self.0, 4 * i)
    }
}

// The version of a table's whole entries.
pub(crate) fn version_of<N: Numbers>(table: &N) -> Version
    ensures { number_of result ≡ version_of (N.numbers table.now) }
{
    let mut large = false;
    for i in 0..table.count() / Entry::SIZE {
        let at = i * Entry::SIZE;
        large |= is_large(table.number(at + WIDTH), table.number(at + HEIGHT));
    }
    first_or_second(large)
}
