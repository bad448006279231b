// Palette, id 2: the count, the total by the count, the entries, whose fourth byte is free.
ghost use Rattle.std.specs.Prelude.{◌≡◌};
ghost use Rattle.kinds.specs.Blocks.{told, palette_block};

use crate::answers::{Step, Stop, filled_entry};
use crate::here::Here;
use answer::Refusal;
use chunk::color_palette::PaletteChunk;
use headers::block_header::BlockHeader;
use headers::fields::Fields;
use headers::kind::Kind;
use memory::State;

const HEAD: usize = BlockHeader::SIZE + PaletteChunk::SIZE;

pub fn palette_block(here: Here, st: State, total: u32) -> Result<Step, Stop>
    ensures { told result ≡ palette_block here.entry.input.now st total here.entry.at here.entry.level }
{
    let c: PaletteChunk = here.chunk()?;
    here.permitted(c.judge(st.image.depth))?;
    let stored = 4 * (c.count as usize);
    here.unless(
        total as usize == PaletteChunk::SIZE + stored,
        Refusal::WrongLength,
    )?;
    let next = here.unit(here.at + HEAD, stored)?;
    Ok(Step::Leaf {
        entry: filled_entry(Kind::Palette as u32, 0, here.level, here.at, HEAD, stored),
        next,
        state: st.with_palette(),
    })
}
