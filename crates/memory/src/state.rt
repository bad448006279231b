// What the rules remember from block to block. It goes in by value and comes back by value, and knows no place.
ghost use Rattle.std.specs.Prelude.{◌≡◌, ℕ, ◌≤◌, ◌<◌};
ghost use Rattle.chunk.specs.Rules.{LayerRules, MaskRules};
ghost use Rattle.memory.specs.State.{members_of, found_one, announced_by, with_image, with_palette, with_bank, with_alpha_bank, layer_by, mask_by, with_selection, with_member, with_layer, with_alpha, channel_by, with_channel, shape_for, is_surplus, is_full};

use crate::codes::Codes;
use crate::parent::{Open, Parent};
use attributes::depth;
use attributes::image_attributes::ImageChunk;
use chunk::alpha_bank_information::AlphaBankChunk;
use chunk::alpha_information::AlphaChunk;
use chunk::channel_information::ChannelChunk;
use chunk::layer_information::LayerChunk;
use chunk::mask::Mask;
use chunk::selection_information::SelectionChunk;
use headers::kind::Kind;
use rect::{Shape, Sides};

// What the image chunk announces: its depth, which is 0 until the chunk has come, whether it wants a palette, and its layer count.
#[derive(Clone, Copy)]
pub struct Announced {
    pub depth: u16,
    pub paletted: bool,
    pub layers: u32,
}

// Which of the blocks that come once were met.
#[derive(Clone, Copy)]
pub struct Met {
    pub palette: bool,
    pub bank: bool,
    pub selection: bool,
    pub alphas: bool,
}

// Of the bank that is open: how many layers or alpha channels it announces, and how many were found in it.
#[derive(Clone, Copy)]
pub struct Members {
    pub announced: u32,
    pub found: u32,
}

// The layer, selection or alpha channel that the walk is in: its number, the channels that are still to come, the codes of those that have,
// and the sides of its saved image and mask rectangles.
#[derive(Clone, Copy)]
pub struct Current {
    pub number: u32,
    pub left: u16,
    pub codes: Codes,
    pub image: Sides,
    pub mask: Sides,
}

#[derive(Clone, Copy)]
pub struct State {
    pub image: Announced,
    pub met: Met,
    pub opened: Open,
    pub members: Members,
    pub current: Current,
}

impl Announced {
    fn by(c: ImageChunk) -> Announced
        ensures { result ≡ announced_by c }
    {
        Announced {
            depth: c.depth,
            paletted: (c.depth < 24) & (c.grey == 0),
            layers: c.layers as u32,
        }
    }
}

impl Members {
    // None was found yet.
    fn of(announced: u32) -> Members
        ensures { result ≡ members_of announced }
    {
        Members {
            announced,
            found: 0,
        }
    }

    fn with_one(mut self) -> Members
        requires { self.found < self.announced }
        ensures { result ≡ found_one self }
    {
        self.found += 1;
        self
    }
}

impl Current {
    // Stays: (d) a constant and no `Default`, as `Codes::NONE`.
    const NONE: Current = Current {
        number: 0,
        left: 0,
        codes: Codes::NONE,
        image: Sides::NONE,
        mask: Sides::NONE,
    };

    fn by(c: LayerChunk, number: u32) -> Current
        requires { (depth : ℕ) × LayerRules depth c }
        ensures { result ≡ layer_by c number }
    {
        Current {
            number,
            left: c.channels,
            codes: Codes::NONE,
            image: Sides::of(c.image.saved),
            mask: Sides::of(c.mask.saved),
        }
    }

    // A selection or an alpha channel has one saved rectangle.
    // Stays: (d) no plainer as an invariant of the chunk, which is read first and judged then.
    fn by_mask(c: Mask, number: u32) -> Current
        requires { MaskRules c }
        ensures { result ≡ mask_by c number }
    {
        let sides = Sides::of(c.area.saved);
        Current {
            number,
            left: c.channels,
            codes: Codes::NONE,
            image: sides,
            mask: sides,
        }
    }

    // One channel more.
    fn with_channel(mut self, c: ChannelChunk) -> Current
        requires { 0 < self.left }
        ensures { result ≡ channel_by c self }
    {
        self.left -= 1;
        self.codes = self.codes.with(c.bitmap, c.channel);
        self
    }

    // The shape of a bitmap's planes in an image of this depth.
    // Stays: (a) the bitmap is a number, as `shape_for` of specs/ has it, and a channel's may be any up to 5.
    #[tactic(auto, unfolding(crate::specs::State::shape_for, laws::specs::Choice::pick))]
    pub fn shape_for(self, depth: u16, bitmap: u16) -> Shape
        ensures { (result ≡ shape_for self depth bitmap) × (result.bits ≤ 8) }
    {
        if bitmap == 0 {
            return Shape {
                sides: self.image,
                bits: depth::bits(depth),
                short: depth::short(depth),
            };
        }
        Shape {
            sides: if bitmap == 2 { self.mask } else { self.image },
            bits: 8,
            short: true,
        }
    }
}

impl State {
    // Before any block.
    // Stays: (d) no plainer as a derived Default: the name says when it holds, and of `Open` no value is the one to begin with.
    pub const START: State = State {
        image: Announced {
            depth: 0,
            paletted: false,
            layers: 0,
        },
        met: Met {
            palette: false,
            bank: false,
            selection: false,
            alphas: false,
        },
        opened: Open::Layers,
        members: Members {
            announced: 0,
            found: 0,
        },
        current: Current::NONE,
    };

    pub fn with_image(mut self, c: ImageChunk) -> State
        ensures { result ≡ with_image c self }
    {
        self.image = Announced::by(c);
        self
    }

    pub fn with_palette(mut self) -> State
        ensures { result ≡ with_palette self }
    {
        self.met.palette = true;
        self
    }

    // The bank is entered, whose layers the image has announced.
    pub fn with_bank(mut self) -> State
        ensures { result ≡ with_bank self }
    {
        self.met.bank = true;
        self.opened = Open::Layers;
        self.members = Members::of(self.image.layers);
        self
    }

    // The alpha bank is entered, whose chunk announces its alpha channels.
    pub fn with_alpha_bank(mut self, c: AlphaBankChunk) -> State
        ensures { result ≡ with_alpha_bank c self }
    {
        self.met.alphas = true;
        self.opened = Open::Alphas;
        self.members = Members::of(c.count as u32);
        self
    }

    pub fn with_selection(mut self, c: SelectionChunk) -> State
        requires { MaskRules c.mask }
        ensures { result ≡ with_selection c self }
    {
        self.met.selection = true;
        self.opened = Open::Mask;
        self.current = Current::by_mask(c.mask, 0);
        self
    }

    // One member of the open bank more.
    // Stays: (d) no plainer as an invariant: a bank that is complete has none left to find, so it is asked for where one comes.
    fn with_member(mut self, current: Current) -> State
        requires { self.members.found < self.members.announced }
        ensures { result ≡ with_member current self }
    {
        self.members = self.members.with_one();
        self.current = current;
        self
    }

    pub fn with_layer(self, c: LayerChunk) -> State
        requires { (LayerRules self.image.depth c) × (self.members.found < self.members.announced) }
        ensures { result ≡ with_layer c self }
    {
        self.with_member(Current::by(c, self.members.found))
    }

    pub fn with_alpha(self, c: AlphaChunk) -> State
        requires { (MaskRules c.mask) × (self.members.found < self.members.announced) }
        ensures { result ≡ with_alpha c self }
    {
        self.with_member(Current::by_mask(c.mask, self.members.found))
    }

    pub fn with_channel(mut self, c: ChannelChunk) -> State
        requires { 0 < self.current.left }
        ensures { result ≡ with_channel c self }
    {
        self.current = self.current.with_channel(c);
        self
    }

    // One layer, alpha channel or channel more than announced.
    pub fn surplus(self, id: u16) -> bool
        ensures { result ≡ is_surplus self id }
    {
        match Kind::try_from(id) {
            Ok(Kind::Layer | Kind::Alpha) => self.members.announced <= self.members.found,
            Ok(Kind::Channel) => self.current.left == 0,
            _ => false,
        }
    }

    // At the end of what holds the place, nothing is missing.
    pub fn full(self, parent: Parent) -> bool
        ensures { result ≡ is_full self parent }
    {
        match parent {
            Parent::Main => self.met.bank & (!self.image.paletted | self.met.palette),
            Parent::Bank | Parent::AlphaBank => self.members.found == self.members.announced,
            Parent::Layer => (self.current.left == 0)
                & self.current.codes.coloured(self.image.depth),
            Parent::Selection | Parent::Alpha => self.current.left == 0,
        }
    }
}
