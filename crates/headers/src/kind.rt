// The kinds of blocks, by their ids (document 000, section 4.4).
ghost use Rattle.std.specs.Prelude.{◌≡◌};
ghost use Rattle.headers.specs.Kind.{id_of, IsKindOf};

// What a block is. Its number is its id.
#[derive(Clone, Copy, Debug, PartialEq, Eq)]
pub enum Kind {
    Image = 0,
    Creator = 1,
    Palette = 2,
    Bank = 3,
    Layer = 4,
    Channel = 5,
    Selection = 6,
    AlphaBank = 7,
    Alpha = 8,
    Thumbnail = 9,
    Extended = 10,
    Tube = 11,
}

// An id that no kind has: 12 and up.
#[derive(Clone, Copy, Debug, PartialEq, Eq)]
pub struct UnknownId(pub u16);

impl Kind {
    // How many there are, so that a table has a row for each.
    pub const COUNT: usize = 12;
}

impl TryFrom<u16> for Kind {
    type Error = UnknownId;

    ghost try_from_gives = { IsKindOf };

    fn try_from(id: u16) -> Result<Self, UnknownId> {
        match id {
            0 => Ok(Kind::Image),
            1 => Ok(Kind::Creator),
            2 => Ok(Kind::Palette),
            3 => Ok(Kind::Bank),
            4 => Ok(Kind::Layer),
            5 => Ok(Kind::Channel),
            6 => Ok(Kind::Selection),
            7 => Ok(Kind::AlphaBank),
            8 => Ok(Kind::Alpha),
            9 => Ok(Kind::Thumbnail),
            10 => Ok(Kind::Extended),
            11 => Ok(Kind::Tube),
            _ => Err(UnknownId(id)),
        }
    }
}

impl From<Kind> for u16 {
    ghost from_gives = { λ kind id. id ≡ id_of kind };

    fn from(kind: Kind) -> u16 {
        kind as u16
    }
}

impl From<Kind> for u32 {
    ghost from_gives = { λ kind id. id ≡ id_of kind };

    fn from(kind: Kind) -> u32 {
        kind as u32
    }
}

impl From<Kind> for usize {
    ghost from_gives = { λ kind id. id ≡ id_of kind };

    fn from(kind: Kind) -> usize {
        kind as usize
    }
}
