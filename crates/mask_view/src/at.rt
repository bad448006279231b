// Facts and a name at a place that a listing gave, of the selection and of an alpha channel, as a layer's are.
ghost use Rattle.std.specs.Prelude.{◌≡◌};
ghost use Rattle.mask_view.specs.At.{selection_facts_at, alpha_facts_at, alpha_name_view_at};

use crate::facts::{AlphaFacts, SelectionFacts};
use chunk::alpha_information::AlphaChunk;
use chunk::selection_information::SelectionChunk;
use view::{Part, named_at, read_at};

// 46: no selection's header with a whole chunk.
#[tactic(auto, unfolding(crate::specs::At::selection_facts_at))]
pub fn selection_at(input: &[u8], place: usize) -> SelectionFacts
    ensures { result ≡ selection_facts_at input.now place }
{
    read_at::<SelectionChunk>(input, place).into()
}

// 47: no alpha channel's header with a whole chunk.
#[tactic(auto, unfolding(crate::specs::At::alpha_facts_at))]
pub fn alpha_at(input: &[u8], place: usize) -> AlphaFacts
    ensures { result ≡ alpha_facts_at input.now place }
{
    read_at::<AlphaChunk>(input, place).into()
}

// Where the bytes of that alpha channel's name are; 47 likewise.
#[tactic(auto, unfolding(crate::specs::At::alpha_name_view_at))]
pub fn alpha_name_at(input: &[u8], place: usize) -> Part
    ensures { result ≡ alpha_name_view_at input.now place }
{
    named_at::<AlphaChunk>(input, place).into()
}
