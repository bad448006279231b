// Facts are whole chunks in the caller's own record, so that C needs no decoder. Beside a refusal they are zeros.
ghost use Rattle.std.specs.Prelude.{◌≡◌, Ok};
ghost use Rattle.headers.specs.Places.{image_chunk_place};
ghost use Rattle.attributes.specs.ImageAttributes.{image_at};
ghost use Rattle.view.specs.Asked.{of_accepted};
ghost use Rattle.view.specs.Facts.{image_told, layer_told, image_facts, layer_facts};

use crate::not_shown::NotShown;
use crate::sought::seek;
use attributes::image_attributes::ImageChunk;
use chunk::layer_information::LayerChunk;
use headers::block_header::BlockHeader;
use headers::fields::Fields;
use headers::file_header::FileHeader;

// The image block comes first: its chunk stands behind the file header and its own header.
pub const IMAGE: usize = FileHeader::SIZE + BlockHeader::SIZE;

// Stays: a number beside values, as (a) C has no Result (psp.h).
#[repr(C)]
#[derive(Clone, Copy)]
pub struct ImageFacts {
    pub number: u32,
    pub image: ImageChunk,
}

// Stays: a number beside values, as (a) C has no Result (psp.h).
#[repr(C)]
#[derive(Clone, Copy)]
pub struct LayerFacts {
    pub number: u32,
    pub layer: LayerChunk,
}

impl From<Result<ImageChunk, NotShown>> for ImageFacts {
    ghost from_gives = { λ seen facts. facts ≡ image_told seen };

    fn from(seen: Result<ImageChunk, NotShown>) -> ImageFacts {
        match seen {
            Ok(image) => ImageFacts { number: 0, image },
            Err(not_shown) => ImageFacts {
                number: not_shown.into(),
                image: ImageChunk::default(),
            },
        }
    }
}

impl From<Result<LayerChunk, NotShown>> for LayerFacts {
    ghost from_gives = { λ seen facts. facts ≡ layer_told seen };

    fn from(seen: Result<LayerChunk, NotShown>) -> LayerFacts {
        match seen {
            Ok(layer) => LayerFacts { number: 0, layer },
            Err(not_shown) => LayerFacts {
                number: not_shown.into(),
                layer: LayerChunk::default(),
            },
        }
    }
}

// The image's chunk, of an accepted input.
fn seek_image(input: &[u8], room: usize) -> Result<ImageChunk, NotShown>
    ensures { result ≡ of_accepted input.now room (Ok (image_at input.now image_chunk_place)) }
{
    listing::count(input, room).answer?;
    Ok(ImageChunk::decode(input, IMAGE))
}

// The listing's own number; an accepted input has the facts of its image.
#[tactic(auto, unfolding(crate::specs::Facts::image_facts))]
pub fn image_facts(input: &[u8], room: usize) -> ImageFacts
    ensures { result ≡ image_facts input.now room }
{
    seek_image(input, room).into()
}

// Layers count from 0 in file order. The listing's own number; then 45: no layer k.
#[tactic(auto, unfolding(crate::specs::Facts::layer_facts))]
pub fn layer_facts(input: &[u8], room: usize, k: u32) -> LayerFacts
    ensures { result ≡ layer_facts input.now room k }
{
    seek::<LayerChunk>(input, room, k).into()
}
