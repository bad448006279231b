// The name of an alpha channel, shown where it stands in the input.
ghost use Rattle.std.specs.Prelude.{◌≡◌};
ghost use Rattle.mask_view.specs.Name.{alpha_name_view, AlphaNameShown};

use chunk::alpha_information::AlphaChunk;
use view::{NotShown, Part, seek_name, show_name};

// Where the bytes of alpha channel k's name are. The listing's own number; then 47: no alpha channel k.
#[tactic(auto, unfolding(crate::specs::Name::alpha_name_view))]
pub fn alpha_name_part(input: &[u8], room: usize, k: u32) -> Part
    ensures { result ≡ alpha_name_view input.now room k }
{
    seek_name::<AlphaChunk>(input, room, k).into()
}

// The bytes of alpha channel k's name.
pub fn alpha_name<'a>(input: &'a [u8], room: usize, k: u32) -> Result<&'a [u8], NotShown>
    ensures { AlphaNameShown input.entry room k result }
{
    show_name::<AlphaChunk>(input, room, k)
}
