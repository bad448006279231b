// The walk: siblings are a loop that looks at one place a turn, and a block that holds blocks is entered and left again. Levels, then
// bytes of the parent, fall. The stack is three levels deep whatever the input.
ghost use Rattle.std.specs.Prelude.{◌≡◌, ◌≢◌, ◌-◌, ◌<◌, ◌≤◌, None, IfSome, length};
ghost use Rattle.walk.specs.Walk.{run};
ghost use Rattle.walk.specs.Room.{Walked};
ghost use Rattle.memory.specs.Parent.{main};
ghost use Rattle.block.specs.Step.{step_at};
ghost use Rattle.plain.specs.Layer.{HoldsPlain};
ghost use Rattle.listing.specs.Question.{kept, put};

use crate::question::{Found, Question};
use answer::{Outcome, Stopped};
use headers::kind::Kind;
use kinds::Step;
use memory::State;
use plain::{Layered, Stretch, held, in_bank, layer_entry, skips};

// What a walk leaves: its answer, the state that it ended in, and what was asked of the entries.
#[derive(Clone, Copy)]
pub struct Out {
    pub outcome: Outcome,
    pub state: State,
    pub found: Found,
}

fn leave(answer: Result<(), Stopped>, place: usize, count: usize, state: State, found: Found) -> Out
    ensures { result ≡ record { outcome = record { answer = answer; place = place; count = count }; state = state; found = found } }
{
    Out {
        outcome: Outcome {
            answer,
            place,
            count,
        },
        state,
        found,
    }
}

// The layer that stands here, where it is plain, passed with its channels; but for a question about channels, which is told of each.
fn layer(
    here: Stretch,
    state: State,
    levels: usize,
    question: Question,
    table: &mut [u32],
) -> Option<Layered>
    ensures plain { IfSome result (λ p. HoldsPlain here.entry.input.now state here.entry.at here.entry.end levels here.entry.room here.entry.count table.old p table.new × (0 < levels) × (question.id ≢ 5)) }
    ensures other { result ≡ None → table.new ≡ table.old }
{
    if in_bank(state, levels) && question.id != Kind::Channel as u32 {
        return held(here, state, table);
    }
    None
}

#[cycle(enter_siblings)]
pub fn siblings(
    stretch: Stretch,
    start: State,
    levels: usize,
    question: Question,
    known: Found,
    table: &mut [u32],
) -> Out
    requires { (levels ≤ main) × (known.count ≤ stretch.count) }
    ensures { Walked (put question) (run (step_at stretch.entry.input.now) (length stretch.entry.input.now) start stretch.entry.at stretch.entry.end levels) stretch.entry.room stretch.entry.count (kept table.old known) result.outcome result.state (kept table.new result.found) }
{
    let s = stretch.input;
    let end = stretch.end;
    let room = stretch.room;
    let mut state = start;
    let mut at = stretch.at;
    let mut count = stretch.count;
    let mut found = known;
    loop {
        let here = Stretch {
            input: s,
            at,
            end,
            count,
            room,
        };
        if let Some(p) = layer(here, state, levels, question, table) {
            found = found.note(question, layer_entry(at, state.members.found));
            at = p.after;
            if p.complete() {
                state = p.state;
                count = p.passed.count;
                continue;
            }
            // What else it holds is walked from behind its channels.
            let inside = Stretch {
                input: s,
                at: p.passed.at,
                end: p.after,
                count: p.passed.count,
                room,
            };
            let o = enter(inside, p.state, levels, question, found, table);
            if o.outcome.answer.is_err() {
                return o;
            }
            state = o.state;
            count = o.outcome.count;
            found = o.found;
            continue;
        }
        match block::look(s, state, at, end, levels) {
            Ok(Step::End) => {
                return leave(Ok(()), at, count, state, found);
            }
            Err(stop) => {
                let answer = Err(Stopped::Rule(stop.refusal));
                return leave(answer, stop.place, count, state, found);
            }
            Ok(
                Step::Leaf {
                    entry,
                    next,
                    state: q,
                },
            ) => {
                // The table is full at the header of the first entry that has no room.
                if count == room {
                    return leave(Err(Stopped::TableFull), at, count, state, found);
                }
                entry::store(table, count, entry);
                found = found.note(question, entry);
                state = q;
                at = next;
                count += 1;
                // What is skipped tends to come in runs. A question about an id that no rule knows is told of each.
                if entry.block.skipped == 1 && question.id < Kind::COUNT as u32 {
                    let behind = Stretch {
                        input: s,
                        at,
                        end,
                        count,
                        room,
                    };
                    let p = skips(behind, levels, question.id, table);
                    at = p.at;
                    count = p.count;
                }
            }
            Ok(
                Step::Nest {
                    entry,
                    inside,
                    state: q,
                    after,
                },
            ) => {
                if count == room {
                    return leave(Err(Stopped::TableFull), at, count, state, found);
                }
                entry::store(table, count, entry);
                let noted = found.note(question, entry);
                let inside = Stretch {
                    input: s,
                    at: inside,
                    end: after,
                    count: count + 1,
                    room,
                };
                let o = enter(inside, q, levels, question, noted, table);
                if o.outcome.answer.is_err() {
                    return o;
                }
                state = o.state;
                at = after;
                count = o.outcome.count;
                found = o.found;
            }
        }
    }
}

#[cycle(enter_siblings)]
fn enter(
    stretch: Stretch,
    start: State,
    levels: usize,
    question: Question,
    known: Found,
    table: &mut [u32],
) -> Out
    requires { (levels ≤ main) × (0 < levels) × (known.count ≤ stretch.count) }
    ensures { Walked (put question) (run (step_at stretch.entry.input.now) (length stretch.entry.input.now) start stretch.entry.at stretch.entry.end (levels - 1)) stretch.entry.room stretch.entry.count (kept table.old known) result.outcome result.state (kept table.new result.found) }
{
    siblings(stretch, start, levels - 1, question, known, table)
}
