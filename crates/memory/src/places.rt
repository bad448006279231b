// The place rules: a fixed grid of twelve kinds by what holds the block, and beside it what depends on the blocks that came before.
ghost use Rattle.std.specs.Prelude.{◌≡◌, ◌<◌};
ghost use Rattle.headers.specs.Kind.{id_of};
ghost use Rattle.memory.specs.Place.{grid_of, is_barred, is_unused, place_of};

use crate::parent::Parent;
use crate::places::Placing::{Enter, Refuse, Skip};
use crate::state::State;
use headers::kind::Kind;

// What becomes of a block, by its number in the grid.
#[derive(Clone, Copy)]
pub enum Placing {
    Refuse = 0,
    Enter = 1,
    Skip = 2,
}

// A row for each kind: at the main level, in the bank, in a layer, in a selection, in the alpha bank, in an alpha channel.
// A static, since a constant of enums would be stored anew at each look.
static GRID: [[Placing; Parent::COUNT]; Kind::COUNT] = [
    [Enter, Refuse, Refuse, Refuse, Refuse, Refuse], // image
    [Skip, Refuse, Refuse, Refuse, Refuse, Refuse], // creator
    [Enter, Refuse, Refuse, Refuse, Refuse, Refuse], // palette
    [Enter, Refuse, Refuse, Refuse, Refuse, Refuse], // bank
    [Refuse, Enter, Refuse, Refuse, Refuse, Refuse], // layer
    [Refuse, Refuse, Enter, Enter, Refuse, Enter], // channel
    [Enter, Refuse, Refuse, Refuse, Refuse, Refuse], // selection
    [Enter, Refuse, Refuse, Refuse, Refuse, Refuse], // alpha bank
    [Refuse, Refuse, Refuse, Refuse, Enter, Refuse], // alpha channel
    [Skip, Refuse, Refuse, Refuse, Refuse, Refuse], // thumbnail
    [Skip, Refuse, Refuse, Refuse, Refuse, Refuse], // extended
    [Skip, Refuse, Refuse, Refuse, Refuse, Refuse], // tube
];

#[tactic(auto, unfolding(crate::specs::Place::grid_of, laws::specs::Choice::pick))]
fn grid(kind: Kind, parent: Parent) -> Placing
    ensures { result ≡ grid_of (id_of kind) parent }
{
    GRID[usize::from(kind)][parent.column()]
}

// What was met before bars a main block.
fn barred(st: State, kind: Kind) -> bool
    ensures { result ≡ is_barred st (id_of kind) }
{
    match kind {
        Kind::Image => true,
        Kind::Palette => st.met.palette,
        Kind::Bank | Kind::Thumbnail => st.met.bank,
        Kind::Selection => st.met.selection,
        Kind::AlphaBank => st.met.alphas,
        _ => false,
    }
}

// A palette at depth 24.
fn unused(st: State, kind: Kind) -> bool
    ensures { result ≡ is_unused st (id_of kind) }
{
    (kind == Kind::Palette) & (st.image.depth == 24)
}

// What becomes of a block of this id there.
// Stays: (a) the id is a number, as `place_of` has it: an id that no kind has gets an answer too.
#[tactic(auto, unfolding(crate::specs::Place::place_of, laws::specs::Choice::pick))]
pub fn place(st: State, id: u16, parent: Parent) -> Placing
    ensures { result ≡ place_of st id parent }
{
    if st.image.depth == 0 {
        return if id == 0 { Enter } else { Refuse };
    }
    let Ok(kind) = Kind::try_from(id) else {
        return Skip;
    };
    if parent == Parent::Main {
        if barred(st, kind) {
            return Refuse;
        }
        if unused(st, kind) {
            return Skip;
        }
    }
    grid(kind, parent)
}
