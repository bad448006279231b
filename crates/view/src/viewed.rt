// The blocks whose chunks are shown. Their views differ in nothing but what stands here.
ghost use Rattle.std.proofs.Common.{rules};
ghost use Rattle.std.specs.Prelude.{◌≤◌, ℕ};
ghost use Rattle.view.specs.declared.not_shown.Lacking.{Lacking};
ghost use Rattle.view.specs.declared.not_shown.Lacking.TheVariants.{Layer, Selection, Alpha};
ghost use Rattle.view.specs.Whole.{Whole};

use crate::not_shown::Lacking;
use chunk::alpha_information::AlphaChunk;
use chunk::layer_information::LayerChunk;
use chunk::selection_information::SelectionChunk;
use headers::fields::Fields;
use headers::kind::Kind;

// A chunk, the id of its block, and what is lacking where there is no such block.
pub trait Viewed: Fields {
    const ID: u16;

    const LACKING: Lacking;

    ghost ID: { ℕ };

    ghost LACKING: { Lacking };

    // Where such a block is listed, its chunk lies inside the input.
    ghost whole: { Whole ID Self.SIZE };
}

// A chunk that begins with a name of 256 bytes.
pub trait Named: Viewed {
    ghost name_inside: { 256 ≤ Self.SIZE };
}

impl Viewed for LayerChunk {
    const ID: u16 = Kind::Layer as u16;

    const LACKING: Lacking = Lacking::Layer;

    ghost ID = { 4 };

    ghost LACKING = { Layer };

    ghost whole = { λ s before e right is. (right.kind 4 is).inside };
}

impl Named for LayerChunk {
    ghost name_inside = { Prim.search rules };
}

impl Viewed for SelectionChunk {
    const ID: u16 = Kind::Selection as u16;

    const LACKING: Lacking = Lacking::Selection;

    ghost ID = { 6 };

    ghost LACKING = { Selection };

    ghost whole = { λ s before e right is. (right.kind 6 is).only.inside };
}

impl Viewed for AlphaChunk {
    const ID: u16 = Kind::Alpha as u16;

    const LACKING: Lacking = Lacking::Alpha;

    ghost ID = { 8 };

    ghost LACKING = { Alpha };

    ghost whole = { λ s before e right is. (right.kind 8 is).inside };
}

impl Named for AlphaChunk {
    ghost name_inside = { Prim.search rules };
}
