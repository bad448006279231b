// Facts at a place that a listing gave: a caller that has a table lists once, and then pays for each block only what reading its chunk costs.
ghost use Rattle.std.specs.Prelude.{◌≡◌};
ghost use Rattle.mask_view.specs.At.{selection_facts_at, alpha_facts_at, alpha_name_view_at};
ghost use Rattle.view.specs.At.{layer_facts_at, name_view_at};

use mask_view::{AlphaFacts, SelectionFacts};
use view::{LayerFacts, Part};

#[unsafe(no_mangle)]
pub extern "C" fn psp_layer_at(input: &[u8], place: usize) -> LayerFacts
    ensures { result ≡ layer_facts_at input.now place }
{
    view::layer_at(input, place)
}

// Which part of the input is the name of the layer there.
#[unsafe(no_mangle)]
pub extern "C" fn psp_name_at(input: &[u8], place: usize) -> Part
    ensures { result ≡ name_view_at input.now place }
{
    view::name_at(input, place)
}

#[unsafe(no_mangle)]
pub extern "C" fn psp_selection_at(input: &[u8], place: usize) -> SelectionFacts
    ensures { result ≡ selection_facts_at input.now place }
{
    mask_view::selection_at(input, place)
}

#[unsafe(no_mangle)]
pub extern "C" fn psp_alpha_at(input: &[u8], place: usize) -> AlphaFacts
    ensures { result ≡ alpha_facts_at input.now place }
{
    mask_view::alpha_at(input, place)
}

// Which part of the input is the name of the alpha channel there.
#[unsafe(no_mangle)]
pub extern "C" fn psp_alpha_name_at(input: &[u8], place: usize) -> Part
    ensures { result ≡ alpha_name_view_at input.now place }
{
    mask_view::alpha_name_at(input, place)
}
