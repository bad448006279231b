// Asking for one entry (document 02, request x): the turns of crate `pencil`, made one after another. Nothing is kept but one paper.

#![tactic(auto)]

mod numbers;
mod turning;

ghost use Rattle.pencil.specs.Pencil.{Pencil};

pub use numbers::Asked;
use pencil::{Paper, Reply};
use std::ops::ControlFlow;
use turning::turn;

// Entry k of an input in a room of so many entries, k counted from 0; or the final answer of the listing in this room, where it has no such
// entry.
pub fn entry_at(input: &[u8], room: usize, k: usize) -> Reply
    ensures { Pencil input.now room k result }
{
    let head = listing::judge(input);
    let answer = head.answer;
    if answer.is_err() {
        return Err(head);
    }
    let mut paper = Paper::FIRST;
    loop {
        match turn(input, room, k, paper) {
            ControlFlow::Break(reply) => return reply,
            ControlFlow::Continue(next) => paper = next,
        }
    }
}
