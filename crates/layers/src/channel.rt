// Channel, id 5: the total by the stored length, the codes, expected and not twice, the plane length, the content.
ghost use Rattle.std.specs.Prelude.{◌≡◌, ◌+◌, ◌<◌, ◌^◌};
ghost use Rattle.chunk.specs.Heads.{channel_head};
ghost use Rattle.kinds.specs.Blocks.{told};
ghost use Rattle.layers.specs.Layers.{is_awaited, channel_entry, channel_block};

use answer::Refusal;
use chunk::channel_information::ChannelChunk;
use entry::{Code, Content, Entry};
use headers::block_header::BlockHeader;
use headers::fields::Fields;
use headers::kind::Kind;
use kinds::{Here, Step, Stop};
use memory::{Parent, State};
use rect::Size;

const HEAD: usize = BlockHeader::SIZE + ChannelChunk::SIZE;

// Expected by what holds it, in an image of this depth, and not there yet.
fn awaited(st: State, parent: Parent, c: ChannelChunk) -> bool
    ensures { result ≡ is_awaited st parent c }
{
    memory::expected(parent, st.image.depth, c.bitmap, c.channel)
        & !st.current.codes.has(c.bitmap, c.channel)
}

// Its entry: a channel fills every part.
pub fn channel_entry(level: usize, at: usize, layer: u32, c: ChannelChunk, size: Size) -> Entry
    requires { (level < 2 ^ 32) × (at + channel_head + c.stored < 2 ^ 32) }
    ensures { result ≡ channel_entry level at layer c size }
{
    Entry {
        block: kinds::entry_block(Kind::Channel as u32, 0, level, at, HEAD + c.stored as usize),
        layer,
        code: Code {
            bitmap: c.bitmap as u32,
            channel: c.channel as u32,
        },
        content: Content {
            start: (at + HEAD) as u32,
            stored: c.stored,
        },
        size,
    }
}

// Its codes come before its plane length.
pub fn channel_block(here: Here, st: State, parent: Parent, total: u32) -> Result<Step, Stop>
    requires { 0 < st.current.left }
    ensures { told result ≡ channel_block here.entry.input.now st parent total here.entry.at here.entry.level }
{
    let c: ChannelChunk = here.chunk()?;
    here.unless(
        total as usize == ChannelChunk::SIZE + c.stored as usize,
        Refusal::WrongLength,
    )?;
    here.permitted(c.judge_codes())?;
    here.unless(awaited(st, parent, c), Refusal::NotExpected)?;
    let shape = st.current.shape_for(st.image.depth, c.bitmap);
    here.permitted(c.judge_plane(shape))?;
    let next = here.unit(here.at + HEAD, c.stored as usize)?;
    Ok(Step::Leaf {
        entry: channel_entry(
            here.level,
            here.at,
            st.current.number,
            c,
            shape.size(c.plane),
        ),
        next,
        state: st.with_channel(c),
    })
}
