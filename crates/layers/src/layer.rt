// Layer, id 4: it owns its header and its chunk; the channels are inside. Its number is its rank in file order, whatever its name.
ghost use Rattle.std.specs.Prelude.{◌≡◌, ◌<◌};
ghost use Rattle.kinds.specs.Blocks.{told};
ghost use Rattle.layers.specs.Layers.{layer_block};

use chunk::layer_information::LayerChunk;
use headers::kind::Kind;
use kinds::{Here, Step, Stop};
use memory::State;

pub fn layer_block(here: Here, st: State, total: u32) -> Result<Step, Stop>
    requires { st.members.found < st.members.announced }
    ensures { told result ≡ layer_block here.entry.input.now st total here.entry.at here.entry.level }
{
    let c: LayerChunk = here.chunk()?;
    here.permitted(c.judge(st.image.depth))?;
    Ok(here.nest::<LayerChunk>(Kind::Layer, st.members.found, st.with_layer(c), total))
}
