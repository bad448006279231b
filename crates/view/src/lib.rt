// What a caller may look at without a table: the palette, the facts of the image and of a layer, and a layer's name. A view walks the
// input once and asks one question on the way, so it is as sure of what it shows as a listing is; whatever is refused there is refused
// here by the same number. A caller that has a table asks at a place of it instead, and nothing is walked.
// Stays: (a) a view takes input, room and k one by one, as the C interface does.

#![tactic(auto)]

mod at;
mod facts;
mod names;
mod not_shown;
mod palette_view;
mod part;
mod shown;
mod sought;
mod viewed;

pub use at::{chunk_at, layer_at, name_at, named_at, read_at};
pub use facts::{ImageFacts, LayerFacts, image_facts, layer_facts};
pub use names::{name, name_part, named, seek_name, show_name};
pub use not_shown::{Lacking, NotShown};
pub use palette_view::{palette, palette_part};
pub use part::Part;
pub use shown::{Shown, Span};
pub use sought::{seek, seek_chunk};
pub use viewed::{Named, Viewed};
