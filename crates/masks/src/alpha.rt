// Alpha channel, id 8: it owns its header and its chunk; its channel is inside. Its number is its rank in the alpha bank, whatever its name.
ghost use Rattle.std.specs.Prelude.{◌≡◌, ◌<◌};
ghost use Rattle.kinds.specs.Blocks.{told};
ghost use Rattle.masks.specs.Masks.{alpha_block};

use chunk::alpha_information::AlphaChunk;
use headers::kind::Kind;
use kinds::{Here, Step, Stop};
use memory::State;

pub fn alpha_block(here: Here, st: State, total: u32) -> Result<Step, Stop>
    requires { st.members.found < st.members.announced }
    ensures { told result ≡ alpha_block here.entry.input.now st total here.entry.at here.entry.level }
{
    let c: AlphaChunk = here.chunk()?;
    here.permitted(c.judge())?;
    Ok(here.nest::<AlphaChunk>(Kind::Alpha, st.members.found, st.with_alpha(c), total))
}
