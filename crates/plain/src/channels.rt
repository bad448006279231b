// The channels of a layer.
ghost use Rattle.std.specs.Prelude.{◌≡◌, ◌≤◌, ◌<◌, ◌^◌, IfSome, length};
ghost use Rattle.plain.specs.Channels.{channel_from, PlainChannel, Channels};

use crate::stretch::{Passed, Stretch};
use chunk::channel_information::ChannelChunk;
use headers::block_header::BlockHeader;
use headers::fields::Fields;
use headers::kind::Kind;
use memory::{Codes, Parent, State};

const HEAD: usize = BlockHeader::SIZE + ChannelChunk::SIZE;

// What was passed, how many channels are still to come, and the codes of those that have.
#[derive(Clone, Copy)]
pub struct Laid {
    pub passed: Passed,
    pub left: u16,
    pub codes: Codes,
}

// The chunk of a channel of a layer that is whole, expected, and has not come.
fn channel(
    s: &[u8],
    at: usize,
    stop: usize,
    depth: u16,
    left: u16,
    codes: Codes,
) -> Option<ChannelChunk>
    requires { (stop ≤ length s.now) × (at < 2 ^ 40) }
    ensures { IfSome result (λ c. (c ≡ channel_from s.now at) × PlainChannel s.now at stop depth left codes) }
{
    let content = at + HEAD;
    if stop < content {
        return None;
    }
    let h = BlockHeader::decode(s, at);
    let c = ChannelChunk::decode(s, at + BlockHeader::SIZE);
    let stored = c.stored as usize;
    let plain = h.marked()
        && h.id == Kind::Channel as u16
        && h.initial as usize == ChannelChunk::SIZE
        && h.total as usize == ChannelChunk::SIZE + stored
        && content + stored <= stop
        && left != 0
        && memory::expected(Parent::Layer, depth, c.bitmap, c.channel)
        && !codes.has(c.bitmap, c.channel);
    plain.then_some(c)
}

// The channels of a layer one behind the other. What changes of the state is kept apart from it, so that it stays in registers.
pub fn channels(stretch: Stretch, st: State, table: &mut [u32]) -> Laid
    ensures { Channels stretch.entry.input.now st stretch.entry.at stretch.entry.end stretch.entry.room stretch.entry.count table.old result table.new }
{
    let s = stretch.input;
    let stop = stretch.reach();
    let mut at = stretch.at;
    let mut count = stretch.count;
    let mut left = st.current.left;
    let mut codes = st.current.codes;
    // Stays: (d) each turn is as long as its channel: an iterator of channels would hold these same four, and the table's count.
    while let Some(c) = channel(s, at, stop, st.image.depth, left, codes) {
        let shape = st.current.shape_for(st.image.depth, c.bitmap);
        if !shape.permits(c.plane) || count == stretch.room {
            break;
        }
        let size = shape.size(c.plane);
        let e = layers::channel_entry(2, at, st.current.number, c, size);
        entry::store(table, count, e);
        at = at + HEAD + c.stored as usize;
        count += 1;
        left -= 1;
        codes = codes.with(c.bitmap, c.channel);
    }
    Laid {
        passed: Passed { at, count },
        left,
        codes,
    }
}
