// A palette is shown where it stands: in the input, or in the caller's own ramp, which a grey image has for its palette.
ghost use Rattle.std.specs.Prelude.{◌≡◌};
ghost use Rattle.view.specs.Palette.{palette_seen, palette_view, PaletteShown};

use crate::facts::IMAGE;
use crate::not_shown::{Lacking, NotShown};
use crate::part::{Part, RAMP};
use crate::shown::{Shown, Span};
use attributes::image_attributes::ImageChunk;
use headers::fields::Fields;
use headers::kind::Kind;
use listing::Question;

const PALETTE: Question = Question {
    id: Kind::Palette as u32,
    skipped: 0,
    index: 0,
};

// Where the listed palette's entries are, or that the ramp stands in for one.
fn seek_palette(input: &[u8], room: usize, ramp: usize) -> Result<Shown, NotShown>
    ensures { result ≡ palette_seen input.now room ramp }
{
    let seen = listing::seek(input, room, PALETTE);
    seen.outcome.answer?;
    let image = ImageChunk::decode(input, IMAGE);
    if image.depth == 24 {
        return Err(Lacking::Palette.into());
    }
    let found = seen.found;
    if 0 < found.count {
        let entries = found.entry.content;
        return Ok(Shown::Input(Span {
            start: entries.start as usize,
            length: entries.stored as usize,
        }));
    }
    if ramp == RAMP {
        return Ok(Shown::WholeRamp);
    }
    Err(Lacking::Ramp.into())
}

// The same in numbers. The listing's own number; then 43 at depth 24, and 44 where a ramp of another length would have to stand in.
#[tactic(auto, unfolding(crate::specs::Palette::palette_view))]
pub fn palette_part(input: &[u8], room: usize, ramp: usize) -> Part
    ensures { result ≡ palette_view input.now room ramp }
{
    seek_palette(input, room, ramp).into()
}

// Those entries, or the ramp.
pub fn palette<'a, 'b: 'a>(
    input: &'a [u8],
    room: usize,
    ramp: &'b [u8],
) -> Result<&'a [u8], NotShown>
    ensures { PaletteShown input.entry room ramp.entry result }
{
    match seek_palette(input, room, ramp.len())? {
        Shown::Input(span) => Ok(span.of(input)),
        Shown::WholeRamp => Ok(ramp),
    }
}
