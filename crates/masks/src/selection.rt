// Selection, id 6: it owns its header and its chunk; its channel is inside.
ghost use Rattle.std.specs.Prelude.{◌≡◌};
ghost use Rattle.kinds.specs.Blocks.{told};
ghost use Rattle.masks.specs.Masks.{selection_block};

use chunk::selection_information::SelectionChunk;
use headers::kind::Kind;
use kinds::{Here, Step, Stop};
use memory::State;

pub fn selection_block(here: Here, st: State, total: u32) -> Result<Step, Stop>
    ensures { told result ≡ selection_block here.entry.input.now st total here.entry.at here.entry.level }
{
    let c: SelectionChunk = here.chunk()?;
    here.permitted(c.judge())?;
    Ok(here.nest::<SelectionChunk>(Kind::Selection, 0, st.with_selection(c), total))
}
