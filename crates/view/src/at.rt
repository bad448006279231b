// Facts and a name at a place that a listing gave: nothing is listed again. One header is judged, as the walk judges it, and its chunk has
// to be whole. That such a block may stand there is not asked: the listing has said so, or nobody has.
ghost use Rattle.std.specs.Prelude.{◌≡◌};
ghost use Rattle.view.specs.Asked.{chunk_of, read_of};
ghost use Rattle.view.specs.At.{is_block_at, chunk_at, layer_facts_at, name_view_at};
ghost use Rattle.view.specs.Name.{name_seen};

use crate::facts::LayerFacts;
use crate::names::named;
use crate::not_shown::{Lacking, NotShown};
use crate::part::Part;
use crate::shown::Span;
use crate::viewed::{Named, Viewed};
use chunk::layer_information::LayerChunk;
use headers::block_header::BlockHeader;
use headers::fields::Fields;

// Whether a header of this id stands at a place, good by itself, with so many bytes of chunk behind it.
fn is_block(input: &[u8], place: usize, id: u16, size: usize) -> bool
    ensures { result ≡ is_block_at id size input.now place }
{
    let whole = BlockHeader::SIZE.saturating_add(size);
    if input.len() < place.saturating_add(whole) {
        return false;
    }
    let h = BlockHeader::decode(input, place);
    h.marked() & (h.id == id) & block::lengths(h)
}

// Where the chunk of such a block starts, of any id and size; what is lacking, where none stands there.
pub fn chunk_at(
    input: &[u8],
    place: usize,
    id: u16,
    size: usize,
    lacking: Lacking,
) -> Result<usize, NotShown>
    ensures { result ≡ chunk_at input.now place id size lacking }
{
    if is_block(input, place, id, size) {
        Ok(place + BlockHeader::SIZE)
    } else {
        Err(lacking.into())
    }
}

// The same of a kind that is viewed.
fn place_of<C: Viewed>(input: &[u8], place: usize) -> Result<usize, NotShown>
    ensures { result ≡ chunk_at input.now place C.ID C.SIZE C.LACKING }
{
    chunk_at(input, place, C::ID, C::SIZE, C::LACKING)
}

// The chunk itself.
pub fn read_at<C: Viewed>(input: &[u8], place: usize) -> Result<C, NotShown>
    ensures { result ≡ read_of (chunk_of C.fields_of C.SIZE input.now) (chunk_at input.now place C.ID C.SIZE C.LACKING) }
{
    let at = place_of::<C>(input, place)?;
    Ok(C::decode(input, at))
}

// Where the bytes of its name are.
pub fn named_at<C: Named>(input: &[u8], place: usize) -> Result<Span, NotShown>
    ensures { result ≡ name_seen input.now (chunk_at input.now place C.ID C.SIZE C.LACKING) }
{
    let at = place_of::<C>(input, place)?;
    Ok(named(input, at))
}

// 45: no layer's header with a whole chunk.
#[tactic(auto, unfolding(crate::specs::At::layer_facts_at))]
pub fn layer_at(input: &[u8], place: usize) -> LayerFacts
    ensures { result ≡ layer_facts_at input.now place }
{
    read_at::<LayerChunk>(input, place).into()
}

// Where the bytes of that layer's name are; 45 likewise.
#[tactic(auto, unfolding(crate::specs::At::name_view_at))]
pub fn name_at(input: &[u8], place: usize) -> Part
    ensures { result ≡ name_view_at input.now place }
{
    named_at::<LayerChunk>(input, place).into()
}
