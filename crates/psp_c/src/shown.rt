// Views of an accepted input: parts as numbers, and facts.
ghost use Rattle.std.specs.Prelude.{◌≡◌, length};
ghost use Rattle.attributes.specs.Resolution.{density_of, dots_of};
ghost use Rattle.mask_view.specs.Facts.{selection_facts, alpha_facts};
ghost use Rattle.mask_view.specs.Name.{alpha_name_view};
ghost use Rattle.view.specs.Facts.{image_facts, layer_facts};
ghost use Rattle.view.specs.Name.{name_view};
ghost use Rattle.view.specs.Palette.{palette_view};

use attributes::resolution::{Dots, Resolution};
use mask_view::{AlphaFacts, SelectionFacts};
use view::{ImageFacts, LayerFacts, Part};

// Which part is the palette: of the input, or of the ramp.
#[unsafe(no_mangle)]
pub extern "C" fn psp_palette(input: &[u8], room: usize, ramp: &[u8]) -> Part
    ensures { result ≡ palette_view input.now room (length ramp.now) }
{
    view::palette_part(input, room, ramp.len())
}

// Which part of the input is the name of layer k.
#[unsafe(no_mangle)]
pub extern "C" fn psp_name(input: &[u8], room: usize, k: u32) -> Part
    ensures { result ≡ name_view input.now room k }
{
    view::name_part(input, room, k)
}

// Which part of the input is the name of alpha channel k.
#[unsafe(no_mangle)]
pub extern "C" fn psp_alpha_name(input: &[u8], room: usize, k: u32) -> Part
    ensures { result ≡ alpha_name_view input.now room k }
{
    mask_view::alpha_name_part(input, room, k)
}

#[unsafe(no_mangle)]
pub extern "C" fn psp_read_image_facts(input: &[u8], room: usize) -> ImageFacts
    ensures { result ≡ image_facts input.now room }
{
    view::image_facts(input, room)
}

#[unsafe(no_mangle)]
pub extern "C" fn psp_read_layer_facts(input: &[u8], room: usize, k: u32) -> LayerFacts
    ensures { result ≡ layer_facts input.now room k }
{
    view::layer_facts(input, room, k)
}

#[unsafe(no_mangle)]
pub extern "C" fn psp_read_selection_facts(input: &[u8], room: usize) -> SelectionFacts
    ensures { result ≡ selection_facts input.now room }
{
    mask_view::selection_facts(input, room)
}

#[unsafe(no_mangle)]
pub extern "C" fn psp_read_alpha_facts(input: &[u8], room: usize, k: u32) -> AlphaFacts
    ensures { result ≡ alpha_facts input.now room k }
{
    mask_view::alpha_facts(input, room, k)
}

// Dots per centimetre of a resolution, where there are any.
#[unsafe(no_mangle)]
pub extern "C" fn psp_dots_per_centimetre(value: f64, metric: u8) -> Dots
    ensures { result ≡ dots_of (density_of (record { value = value; metric = metric })) }
{
    Resolution { value, metric }.per_centimetre().into()
}
