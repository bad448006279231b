// A block: its header, its place, its count and its lengths; then its kind.
ghost use Rattle.std.specs.Prelude.{◌≡◌, ◌≤◌, ◌<◌, ◌^◌, ◌&&◌, eqb, leb, length};
ghost use Rattle.limits.specs.Limits.{input_limit};
ghost use Rattle.memory.specs.declared.places.Placing.TheVariants as placing;
ghost use Rattle.memory.specs.Parent.{main};
ghost use Rattle.memory.specs.Place.{place_of};
ghost use Rattle.kinds.specs.Blocks.{told};
ghost use Rattle.block.specs.Step.{are_lengths, is_inside, kind_of, placed_of, block_at, Roomy};

use answer::Refusal;
use attributes::image_attributes::ImageChunk;
use chunk::alpha_bank_information::AlphaBankChunk;
use chunk::alpha_information::AlphaChunk;
use chunk::channel_information::ChannelChunk;
use chunk::color_palette::PaletteChunk;
use chunk::layer_information::LayerChunk;
use chunk::selection_information::SelectionChunk;
use headers::block_header::BlockHeader;
use headers::fields::Fields;
use headers::kind::Kind;
use kinds::{Here, Step, Stop};
use memory::{MAIN, Parent, Placing, State};

// Its initial length is that of its chunk, which the total holds.
fn holds<C: Fields>(h: BlockHeader) -> bool
    ensures { result ≡ (eqb h.initial C.SIZE && leb C.SIZE h.total) }
{
    (h.initial as usize == C::SIZE) & (C::SIZE <= h.total as usize)
}

// The lengths of a block that is entered, by its id.
#[tactic(auto, unfolding(crate::specs::Step::are_lengths, laws::specs::Choice::pick))]
pub fn lengths(h: BlockHeader) -> bool
    ensures { result ≡ are_lengths h }
{
    match Kind::try_from(h.id) {
        Ok(Kind::Image) => holds::<ImageChunk>(h) & (h.total as usize == ImageChunk::SIZE),
        Ok(Kind::Palette) => holds::<PaletteChunk>(h),
        Ok(Kind::Bank) => h.initial == 0,
        Ok(Kind::Layer) => {
            holds::<LayerChunk>(h) | ((h.initial == 0) & (LayerChunk::SIZE <= h.total as usize))
        }
        Ok(Kind::Selection) => holds::<SelectionChunk>(h),
        Ok(Kind::AlphaBank) => holds::<AlphaBankChunk>(h),
        Ok(Kind::Alpha) => holds::<AlphaChunk>(h),
        _ => holds::<ChannelChunk>(h),
    }
}

// Its total stays inside its parent.
fn inside(here: Here, h: BlockHeader, end: usize) -> bool
    ensures { result ≡ is_inside h here.entry.at end }
{
    here.chunk_place() + h.total as usize <= end
}

// Its chunk, by kind; a channel is also judged by what holds it.
#[tactic(auto, unfolding(crate::specs::Step::kind_of, laws::specs::Choice::pick))]
fn kind(here: Here, st: State, parent: Parent, h: BlockHeader) -> Result<Step, Stop>
    requires { Roomy st h.id }
    ensures { told result ≡ kind_of here.entry.input.now st parent h here.entry.at here.entry.level }
{
    match Kind::try_from(h.id) {
        Ok(Kind::Image) => kinds::image_block(here, st),
        Ok(Kind::Palette) => kinds::palette_block(here, st, h.total),
        Ok(Kind::Bank) => Ok(kinds::bank_block(st, h.total, here.at, here.level)),
        Ok(Kind::Layer) => layers::layer_block(here, st, h.total),
        Ok(Kind::Selection) => masks::selection_block(here, st, h.total),
        Ok(Kind::AlphaBank) => masks::alpha_bank_block(here, st, h.total),
        Ok(Kind::Alpha) => masks::alpha_block(here, st, h.total),
        _ => layers::channel_block(here, st, parent, h.total),
    }
}

// One more than announced (9), lengths (6).
#[tactic(auto, using(kinds::proofs::Judging::handed_on, crate::proofs::Passed::roomy), unfolding(crate::specs::Step::placed_of, laws::specs::Choice::pick))]
fn entered(here: Here, st: State, parent: Parent, h: BlockHeader, end: usize) -> Result<Step, Stop>
    requires { place_of st h.id parent ≡ placing.Enter }
    ensures { told result ≡ placed_of here.entry.input.now st parent h placing.Enter here.entry.at end here.entry.level }
{
    if st.surplus(h.id) {
        return Err(here.stop(Refusal::NotExpected));
    }
    here.unless(lengths(h) & inside(here, h, end), Refusal::WrongLength)?;
    kind(here, st, parent, h)
}

// Only its total is judged (6).
#[tactic(auto, using(kinds::proofs::Judging::handed_on), unfolding(crate::specs::Step::placed_of))]
fn skipped(here: Here, st: State, parent: Parent, h: BlockHeader, end: usize) -> Result<Step, Stop>
    ensures { told result ≡ placed_of here.entry.input.now st parent h placing.Skip here.entry.at end here.entry.level }
{
    here.unless(inside(here, h, end), Refusal::WrongLength)?;
    kinds::skip_block(here, st, h.id, h.total)
}

// Its place (7), by what holds it.
#[tactic(auto, unfolding(crate::specs::Step::placed_of))]
fn placed(here: Here, st: State, parent: Parent, h: BlockHeader, end: usize) -> Result<Step, Stop>
    ensures { told result ≡ placed_of here.entry.input.now st parent h (place_of st h.id parent) here.entry.at end here.entry.level }
{
    match memory::place(st, h.id, parent) {
        Placing::Refuse => Err(here.stop(Refusal::OutOfPlace)),
        Placing::Enter => entered(here, st, parent, h, end),
        Placing::Skip => skipped(here, st, parent, h, end),
    }
}

// Presence (2), mark (5).
#[tactic(auto, using(kinds::proofs::Judging::handed_on), unfolding(crate::specs::Step::block_at))]
pub fn block(s: &[u8], st: State, at: usize, end: usize, levels: usize) -> Result<Step, Stop>
    requires { (length s.now ≤ input_limit) × (at ≤ end) × (end < 2 ^ 40) × (levels ≤ main) }
    ensures { told result ≡ block_at s.now st at end levels }
{
    let here = Here::at(s, at, MAIN - levels)?;
    let h = here.header();
    here.unless(h.marked(), Refusal::WrongMark)?;
    placed(here, st, Parent::at(st.opened, levels), h, end)
}
