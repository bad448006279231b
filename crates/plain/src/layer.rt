// A layer of the bank, with its channels.
ghost use Rattle.std.specs.Prelude.{None, ◌≡◌, true, ◌≤◌, ◌<◌, ◌^◌, IfSome, length};
ghost use Rattle.chunk.specs.LayerInformation.{layer_fault};
ghost use Rattle.plain.specs.Channels.{with_left};
ghost use Rattle.plain.specs.Layer.{Banked, GoodArea, PlainLayer, layer_from, layer_entry, is_complete, Holds};

use crate::channels::channels;
use crate::stretch::{Passed, Stretch};
use attributes::depth;
use chunk::area::Area;
use chunk::layer_information::LayerChunk;
use entry::Entry;
use headers::block_header::BlockHeader;
use headers::fields::Fields;
use headers::kind::Kind;
use memory::{Codes, Open, Parent, State};

const HEAD: usize = BlockHeader::SIZE + LayerChunk::SIZE;

// A plain layer and those of its channels that are plain: what was passed, where the layer ends, and the state behind these channels.
#[derive(Clone, Copy)]
pub struct Layered {
    pub passed: Passed,
    pub after: usize,
    pub state: State,
}

impl Layered {
    // Nothing is left of the layer behind these channels, and none is missing.
    pub fn complete(self) -> bool
        ensures { result ≡ is_complete self }
    {
        self.passed.at == self.after && self.state.full(Parent::Layer)
    }
}

// In the bank of layers, behind the image.
pub fn in_bank(st: State, levels: usize) -> bool
    ensures { result ≡ true → Banked st levels }
{
    matches!(st.opened, Open::Layers) && levels == 1 && st.image.depth != 0
}

// A border that is proper, and a saved rectangle that belongs to it.
fn good_area(area: Area) -> bool
    ensures { result ≡ true → GoodArea area }
{
    area.border.is_proper() && area.saved.is_saved(area.border)
}

// No field of the chunk is at fault. The earliest that is, `judge` names; here the cheapest tests come first.
#[tactic(auto, using(crate::proofs::LayerStep::layer_good))]
fn good(c: LayerChunk, depth: u16) -> bool
    ensures { result ≡ true → layer_fault depth c ≡ None }
{
    c.kind <= 1
        && c.blends <= 5
        && 1 <= c.bitmaps
        && c.bitmaps <= 3
        && c.channels as u32 + 1 == depth::channels(depth) + c.bitmaps as u32
        && good_area(c.image)
        && good_area(c.mask)
}

// Where a layer ends that is announced, whole and good, and its chunk.
fn layer(s: &[u8], st: State, at: usize, stop: usize) -> Option<(usize, LayerChunk)>
    requires { (stop ≤ length s.now) × (at < 2 ^ 40) }
    ensures { IfSome result (λ p. (p ≡ layer_from s.now at) × PlainLayer s.now st at stop) }
{
    if stop < at + HEAD {
        return None;
    }
    let h = BlockHeader::decode(s, at);
    let chunk = at + BlockHeader::SIZE;
    let total = h.total as usize;
    let whole = h.marked()
        && h.id == Kind::Layer as u16
        && st.members.found < st.members.announced
        && matches!(h.initial as usize, LayerChunk::SIZE | 0)
        && LayerChunk::SIZE <= total
        && chunk + total <= stop;
    if !whole {
        return None;
    }
    let c = LayerChunk::decode(s, chunk);
    good(c, st.image.depth).then_some((chunk + total, c))
}

pub fn layer_entry(at: usize, number: u32) -> Entry
    requires { at < 2 ^ 32 }
    ensures { result ≡ layer_entry at number }
{
    kinds::ranked_entry(Kind::Layer as u32, 1, at, HEAD, number)
}

// The state behind channels that were passed.
fn behind(mut st: State, left: u16, codes: Codes) -> State
    ensures { result ≡ with_left st left codes }
{
    st.current.left = left;
    st.current.codes = codes;
    st
}

// A layer with the channels that stand behind its chunk; nothing where it is not plain, or has no room.
pub fn held(stretch: Stretch, st: State, table: &mut [u32]) -> Option<Layered>
    ensures { Holds stretch.entry.input.now st stretch.entry.at stretch.entry.end stretch.entry.room stretch.entry.count table.old result table.new }
{
    let at = stretch.at;
    let count = stretch.count;
    if count == stretch.room {
        return None;
    }
    let (after, c) = layer(stretch.input, st, at, stretch.reach())?;
    entry::store(table, count, layer_entry(at, st.members.found));
    let inside = Stretch {
        input: stretch.input,
        at: at + HEAD,
        end: after,
        count: count + 1,
        room: stretch.room,
    };
    let q = st.with_layer(c);
    let p = channels(inside, q, table);
    Some(Layered {
        passed: p.passed,
        after,
        state: behind(q, p.left, p.codes),
    })
}
