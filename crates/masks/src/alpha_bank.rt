// Alpha bank, id 7: it owns its header and its chunk, whose count is not judged; the alpha channels are inside.
ghost use Rattle.std.specs.Prelude.{◌≡◌};
ghost use Rattle.kinds.specs.Blocks.{told};
ghost use Rattle.masks.specs.Masks.{alpha_bank_block};

use chunk::alpha_bank_information::AlphaBankChunk;
use headers::kind::Kind;
use kinds::{Here, Step, Stop};
use memory::State;

pub fn alpha_bank_block(here: Here, st: State, total: u32) -> Result<Step, Stop>
    ensures { told result ≡ alpha_bank_block here.entry.input.now st total here.entry.at here.entry.level }
{
    let c: AlphaBankChunk = here.chunk()?;
    Ok(here.nest::<AlphaBankChunk>(Kind::AlphaBank, 0, st.with_alpha_bank(c), total))
}
