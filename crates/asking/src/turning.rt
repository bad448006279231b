// One turn of the pencil: what is written next, by the rule of the place where it stands.
ghost use Rattle.std.specs.Prelude.{◌≡◌, ◌≤◌, Err};
ghost use Rattle.answer.specs.declared.Stopped.TheVariants.{Rule};
ghost use Rattle.kinds.specs.Blocks.{told};
ghost use Rattle.pencil.specs.Pencil.{final, out_of, passed, turn_by, turn_at};
ghost use Rattle.pencil.specs.Standing.{Standing};

use answer::{Outcome, Stopped};
use block::Edge;
use entry::Entry;
use kinds::{Step, Stop};
use memory::State;
use pencil::{Inside, Paper, Turn};
use std::ops::ControlFlow::{Break, Continue};

// A final answer: so many entries were passed.
fn last(paper: Paper, answer: Result<(), Stopped>, place: usize) -> Turn
    ensures { result ≡ final paper answer place }
{
    Break(Err(Outcome {
        answer,
        place,
        count: paper.count,
    }))
}

// At an end: out of the inner block, or of the file.
#[tactic(auto, unfolding(pencil::specs::Pencil::out_of))]
fn out(paper: Paper) -> Turn
    ensures { result ≡ out_of paper paper.inside }
{
    match paper.inside {
        Inside::Nothing => last(paper, Ok(()), paper.place),
        Inside::One(end) => Continue(Paper {
            place: end,
            inside: Inside::Nothing,
            ..paper
        }),
        Inside::Two(end, outer) => Continue(Paper {
            place: end,
            inside: Inside::One(outer),
            ..paper
        }),
    }
}

// At an entry: no room is left for it, or it is the one, or it is passed and the pencil goes on.
// Stays: (d) room, k and paper apart, here and below: the first two are asked, as `entry_at` has them, and the paper is written anew.
#[tactic(auto, unfolding(pencil::specs::Pencil::passed, laws::specs::Choice::pick))]
fn pass(
    room: usize,
    k: usize,
    paper: Paper,
    entry: Entry,
    place: usize,
    inside: Inside,
    state: State,
) -> Turn
    requires { paper.count ≤ room }
    ensures { result ≡ passed room k paper entry place inside state }
{
    if paper.count == room {
        return last(paper, Err(Stopped::TableFull), paper.place);
    }
    if paper.count == k {
        return Break(Ok(entry));
    }
    Continue(Paper {
        place,
        inside,
        state,
        count: paper.count + 1,
    })
}

// At a refusal.
fn stopped(paper: Paper, stop: Stop) -> Turn
    ensures { result ≡ final paper (Err (Rule stop.refusal)) stop.place }
{
    last(paper, Err(stop.refusal.into()), stop.place)
}

// By what stands at the place: out, stop, on behind the block, or into it.
#[tactic(auto, unfolding(pencil::specs::Pencil::turn_by))]
fn by(room: usize, k: usize, paper: Paper, step: Result<Step, Stop>) -> Turn
    requires { paper.count ≤ room }
    ensures { result ≡ turn_by room k paper (told step) }
{
    match step {
        Ok(Step::End) => out(paper),
        Ok(Step::Leaf { entry, next, state }) => {
            pass(room, k, paper, entry, next, paper.inside, state)
        }
        Ok(
            Step::Nest {
                entry,
                inside,
                state,
                after,
            },
        ) => {
            let open = paper.inside.enter(after);
            pass(room, k, paper, entry, inside, open, state)
        }
        Err(stop) => stopped(paper, stop),
    }
}

// What is written next. This is `block::look` at the place, in its two parts: a step that is handed on would be copied.
pub fn turn(s: &[u8], room: usize, k: usize, paper: Paper) -> Turn
    requires { Standing s.now room paper }
    ensures { result ≡ turn_at s.now room k paper }
{
    let inside = paper.inside;
    let state = paper.state;
    let end = inside.end();
    let levels = inside.levels();
    match block::edge_at(s, state, paper.place, end, levels) {
        Ok(Edge::End) => out(paper),
        Ok(Edge::Block) => by(
            room,
            k,
            paper,
            block::block(s, state, paper.place, end, levels),
        ),
        Err(stop) => stopped(paper, stop),
    }
}
