// Bank, id 3: it owns its header; the layers are inside.
ghost use Rattle.std.specs.Prelude.{◌≡◌, ◌≤◌, Ok};
ghost use Rattle.limits.specs.Limits.{input_limit};
ghost use Rattle.kinds.specs.Blocks.{told, bank_block};

use crate::answers::{Step, ranked_entry};
use headers::block_header::BlockHeader;
use headers::fields::Fields;
use headers::kind::Kind;
use memory::State;

// Its end may pass 32 bits.
// Stays: (d) place and level in place of a `Here`: no byte of the input is looked at, and a `Here` would ask for one that has the header.
#[tactic(auto, unfolding(crate::specs::Blocks::bank_block))]
pub fn bank_block(st: State, total: u32, at: usize, level: usize) -> Step
    requires { (at ≤ input_limit) × (level ≤ 2) }
    ensures { told (Ok result) ≡ bank_block st total at level }
{
    let inside = at + BlockHeader::SIZE;
    Step::Nest {
        entry: ranked_entry(Kind::Bank as u32, level, at, BlockHeader::SIZE, 0),
        inside,
        state: st.with_bank(),
        after: inside + total as usize,
    }
}
