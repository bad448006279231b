// A name is shown where it stands in the input: nothing is copied, and its length is counted here.
ghost use Rattle.std.specs.Prelude.{◌≡◌, ◌+◌, ◌≤◌, length};
ghost use Rattle.view.specs.Asked.{chunk_sought};
ghost use Rattle.view.specs.Name.{before_zero, name_in, name_seen, name_view, NameShown};
ghost use Rattle.view.specs.Shown.{ShownAs};

use crate::not_shown::NotShown;
use crate::part::Part;
use crate::shown::Span;
use crate::sought::seek_place;
use crate::viewed::Named;
use chunk::layer_information::LayerChunk;

// The bytes of a chunk's name field.
const FIELD: usize = 256;

// The name that a chunk begins with, as a part of the input: its bytes before the first zero, or all 256.
pub fn named(input: &[u8], at: usize) -> Span
    requires { at + 256 ≤ length input.now }
    ensures { result ≡ name_in input.now at }
{
    Span {
        start: at,
        length: before_zero(&input[at..at + FIELD]),
    }
}

// Where the bytes of the name are that the k-th block of a kind has.
pub fn seek_name<C: Named>(input: &[u8], room: usize, k: u32) -> Result<Span, NotShown>
    ensures { result ≡ name_seen input.now (chunk_sought input.now room C.ID C.LACKING k) }
{
    let at = seek_place::<C>(input, room, k)?;
    Ok(named(input, at))
}

// Those bytes.
pub fn show_name<'a, C: Named>(input: &'a [u8], room: usize, k: u32) -> Result<&'a [u8], NotShown>
    ensures { ShownAs input.entry (name_seen input.entry.now (chunk_sought input.entry.now room C.ID C.LACKING k)) result }
{
    let span = seek_name::<C>(input, room, k)?;
    Ok(span.of(input))
}

// Where the bytes of layer k's name are. The listing's own number; then 45: no layer k.
#[tactic(auto, unfolding(crate::specs::Name::name_view))]
pub fn name_part(input: &[u8], room: usize, k: u32) -> Part
    ensures { result ≡ name_view input.now room k }
{
    seek_name::<LayerChunk>(input, room, k).into()
}

// The bytes of layer k's name.
pub fn name<'a>(input: &'a [u8], room: usize, k: u32) -> Result<&'a [u8], NotShown>
    ensures { NameShown input.entry room k result }
{
    show_name::<LayerChunk>(input, room, k)
}

// How many bytes stand before the first zero, or how many there are.
fn before_zero(bytes: &[u8]) -> usize
    ensures { result ≡ before_zero bytes.now }
{
    bytes.iter().position(|b| *b == 0).unwrap_or(bytes.len())
}
