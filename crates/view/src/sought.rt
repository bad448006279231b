// The chunk of the k-th block of a kind, found by the listing.
ghost use Rattle.std.specs.Prelude.{◌≡◌};
ghost use Rattle.view.specs.Asked.{chunk_of, chunk_sought, read_of};

use crate::not_shown::{Lacking, NotShown};
use crate::viewed::Viewed;
use headers::block_header::BlockHeader;
use headers::fields::Fields;
use listing::Question;

// Where the chunk of the k-th block of an id starts, of any id; what is lacking, where an accepted input has no such block.
pub fn seek_chunk(
    input: &[u8],
    room: usize,
    id: u32,
    lacking: Lacking,
    k: u32,
) -> Result<usize, NotShown>
    ensures { result ≡ chunk_sought input.now room id lacking k }
{
    let question = Question {
        id,
        skipped: 0,
        index: k as usize,
    };
    let seen = listing::seek(input, room, question);
    seen.outcome.answer?;
    let found = seen.found;
    if question.index < found.count {
        let block = found.entry.block;
        return Ok(block.place as usize + BlockHeader::SIZE);
    }
    Err(lacking.into())
}

// The same of a kind that is viewed.
pub(crate) fn seek_place<C: Viewed>(input: &[u8], room: usize, k: u32) -> Result<usize, NotShown>
    ensures { result ≡ chunk_sought input.now room C.ID C.LACKING k }
{
    seek_chunk(input, room, C::ID as u32, C::LACKING, k)
}

// The chunk itself.
pub fn seek<C: Viewed>(input: &[u8], room: usize, k: u32) -> Result<C, NotShown>
    ensures { result ≡ read_of (chunk_of C.fields_of C.SIZE input.now) (chunk_sought input.now room C.ID C.LACKING k) }
{
    let at = seek_place::<C>(input, room, k)?;
    Ok(C::decode(input, at))
}
