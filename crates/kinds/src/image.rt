// Image, id 0: a bad field comes before a compression that is not read.
ghost use Rattle.std.specs.Prelude.{◌≡◌};
ghost use Rattle.kinds.specs.Blocks.{told, image_block};

use crate::answers::{Step, Stop, ranked_entry};
use crate::here::Here;
use answer::Refusal;
use attributes::image_attributes::ImageChunk;
use headers::block_header::BlockHeader;
use headers::fields::Fields;
use headers::kind::Kind;
use memory::State;

const HEAD: usize = BlockHeader::SIZE + ImageChunk::SIZE;

// LZ77 compression.
const LZ77: u16 = 2;

pub fn image_block(here: Here, st: State) -> Result<Step, Stop>
    ensures { told result ≡ image_block here.entry.input.now st here.entry.at here.entry.level }
{
    let c: ImageChunk = here.chunk()?;
    here.permitted(c.judge())?;
    if c.compression == LZ77 {
        return Err(Stop {
            refusal: Refusal::NotReadable,
            place: here.chunk_place(),
        });
    }
    Ok(Step::Leaf {
        entry: ranked_entry(Kind::Image as u32, here.level, here.at, HEAD, 0),
        next: here.at + HEAD,
        state: st.with_image(c),
    })
}
