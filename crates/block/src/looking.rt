// One look at one place: an end, or what is too short for a header; else a block.
ghost use Rattle.std.specs.Prelude.{◌≡◌, ◌≤◌, ◌<◌, ◌^◌, length};
ghost use Rattle.limits.specs.Limits.{input_limit};
ghost use Rattle.memory.specs.Parent.{main};
ghost use Rattle.kinds.specs.Blocks.{told};
ghost use Rattle.block.specs.Step.{step_at};
ghost use Rattle.block.specs.Edge.{ends_at, lacking_at, is_short, edge_of};

use crate::header::block;
use answer::Refusal;
use headers::block_header::BlockHeader;
use headers::fields::Fields;
use kinds::{Step, Stop};
use memory::{MAIN, Parent, State};

// What is known of a place before a header is read, where it is not refused: it is an end, and nothing is missing; or a block stands there.
#[derive(Clone, Copy)]
pub enum Edge {
    End,
    Block,
}

// Blocks end with their parent, and those of the main level with the input.
#[tactic(auto, unfolding(laws::specs::Choice::pick))]
fn ends(s: &[u8], at: usize, end: usize, levels: usize) -> bool
    ensures { result ≡ ends_at s.now at end levels }
{
    at == if levels == MAIN { s.len() } else { end }
}

// At an end where something is missing: more input may bring it to the main level, and nothing brings it to a parent.
#[tactic(auto, unfolding(laws::specs::Choice::pick))]
fn lacking(levels: usize) -> Refusal
    ensures { result ≡ lacking_at levels }
{
    if levels == MAIN {
        Refusal::EndsTooSoon
    } else {
        Refusal::Missing
    }
}

// A parent has 1 to 13 bytes left.
#[tactic(auto, unfolding(laws::specs::Choice::pick))]
fn short(at: usize, end: usize, levels: usize) -> bool
    requires { at ≤ end }
    ensures { result ≡ is_short at end levels }
{
    (levels != MAIN) & (end - at < BlockHeader::SIZE)
}

// Stays: (d) place, end and levels apart, as `edge_of` and `step_at` have them: the walk's `Stretch` also counts entries and has no levels.
#[tactic(auto, unfolding(crate::specs::Edge::edge_of, laws::specs::Choice::pick))]
pub fn edge_at(s: &[u8], st: State, at: usize, end: usize, levels: usize) -> Result<Edge, Stop>
    requires { at ≤ end }
    ensures { result ≡ edge_of s.now st at end levels }
{
    let refusal = if ends(s, at, end, levels) {
        if st.full(Parent::at(st.opened, levels)) {
            return Ok(Edge::End);
        }
        lacking(levels)
    } else {
        if !short(at, end, levels) {
            return Ok(Edge::Block);
        }
        Refusal::WrongLength
    };
    Err(Stop { refusal, place: at })
}

pub fn look(s: &[u8], st: State, at: usize, end: usize, levels: usize) -> Result<Step, Stop>
    requires { (length s.now ≤ input_limit) × (at ≤ end) × (end < 2 ^ 40) × (levels ≤ main) }
    ensures { told result ≡ step_at s.now st at end levels }
{
    match edge_at(s, st, at, end, levels)? {
        Edge::End => Ok(Step::End),
        Edge::Block => block(s, st, at, end, levels),
    }
}
