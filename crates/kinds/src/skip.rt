// A skipped block: its data is one unit.
ghost use Rattle.std.specs.Prelude.{◌≡◌};
ghost use Rattle.kinds.specs.Blocks.{told, skipped_by, skip_block};

use crate::answers::{Step, Stop, filled_entry};
use crate::here::Here;
use headers::block_header::BlockHeader;
use headers::fields::Fields;
use headers::kind::Kind;
use memory::State;

// A palette that is skipped was met all the same.
#[tactic(auto, unfolding(crate::specs::Blocks::skipped_by, laws::specs::Choice::pick))]
fn skipped(st: State, id: u16) -> State
    ensures { result ≡ skipped_by id st }
{
    if id == Kind::Palette as u16 {
        return st.with_palette();
    }
    st
}

#[tactic(auto, using(crate::proofs::Judging::handed_on), unfolding(crate::specs::Blocks::skip_block))]
pub fn skip_block(here: Here, st: State, id: u16, total: u32) -> Result<Step, Stop>
    ensures { told result ≡ skip_block here.entry.input.now st id total here.entry.at here.entry.level }
{
    let stored = total as usize;
    let next = here.unit(here.chunk_place(), stored)?;
    Ok(Step::Leaf {
        entry: filled_entry(id as u32, 1, here.level, here.at, BlockHeader::SIZE, stored),
        next,
        state: skipped(st, id),
    })
}
