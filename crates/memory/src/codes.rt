// The bitmap and channel codes of channels: which are expected by what holds them, and which have come.
ghost use Rattle.std.specs.Prelude.{◌≡◌};
ghost use Rattle.memory.specs.Codes.{IsCodeOf, is_of_layer, is_expected, has_codes, with_codes, has_colours};

use crate::parent::Parent;

// A channel that a layer can have: of bitmap 0 channels 0 to 3, bitmap 1, bitmap 2.
#[derive(Clone, Copy)]
enum Code {
    Composite,
    Red,
    Green,
    Blue,
    Transparency,
    User,
}

// A layer's channel of each code has come.
#[derive(Clone, Copy)]
pub struct Codes {
    pub composite: bool,
    pub red: bool,
    pub green: bool,
    pub blue: bool,
    pub transparency: bool,
    pub user: bool,
}

impl Code {
    // Of a mask by its bitmap alone.
    fn of(bitmap: u16, channel: u16) -> Option<Code>
        ensures { IsCodeOf bitmap channel result }
    {
        match (bitmap, channel) {
            (0, 0) => Some(Code::Composite),
            (0, 1) => Some(Code::Red),
            (0, 2) => Some(Code::Green),
            (0, 3) => Some(Code::Blue),
            (1, _) => Some(Code::Transparency),
            (2, _) => Some(Code::User),
            _ => None,
        }
    }
}

// In a layer colours are bitmap 0: channels 1 to 3 at depth 24, else 0. Masks have channel 0.
fn of_layer(depth: u16, bitmap: u16, channel: u16) -> bool
    ensures { result ≡ is_of_layer depth bitmap channel }
{
    match Code::of(bitmap, channel) {
        Some(Code::Composite) => depth != 24,
        Some(Code::Red | Code::Green | Code::Blue) => depth == 24,
        Some(Code::Transparency | Code::User) => channel == 0,
        None => false,
    }
}

// By what holds the channel.
// Stays: (a) the codes are two numbers here and in `Codes`, as `is_expected` has them and a file may have any.
pub fn expected(parent: Parent, depth: u16, bitmap: u16, channel: u16) -> bool
    ensures { result ≡ is_expected parent depth bitmap channel }
{
    match parent {
        Parent::Layer => of_layer(depth, bitmap, channel),
        Parent::Selection => (bitmap, channel) == (3, 0),
        Parent::Alpha => (bitmap, channel) == (4, 0),
        Parent::Main | Parent::Bank | Parent::AlphaBank => false,
    }
}

impl Codes {
    // No channel has come.
    // Stays: (d) a constant and no `Default`: `State::START` is made of it, and a constant's value calls no function.
    pub const NONE: Codes = Codes {
        composite: false,
        red: false,
        green: false,
        blue: false,
        transparency: false,
        user: false,
    };

    pub fn has(self, bitmap: u16, channel: u16) -> bool
        ensures { result ≡ has_codes self bitmap channel }
    {
        match Code::of(bitmap, channel) {
            Some(Code::Composite) => self.composite,
            Some(Code::Red) => self.red,
            Some(Code::Green) => self.green,
            Some(Code::Blue) => self.blue,
            Some(Code::Transparency) => self.transparency,
            Some(Code::User) => self.user,
            None => false,
        }
    }

    pub fn with(mut self, bitmap: u16, channel: u16) -> Codes
        ensures { result ≡ with_codes self bitmap channel }
    {
        match Code::of(bitmap, channel) {
            Some(Code::Composite) => self.composite = true,
            Some(Code::Red) => self.red = true,
            Some(Code::Green) => self.green = true,
            Some(Code::Blue) => self.blue = true,
            Some(Code::Transparency) => self.transparency = true,
            Some(Code::User) => self.user = true,
            None => {}
        }
        self
    }

    // All colour channels of a layer have come.
    pub fn coloured(self, depth: u16) -> bool
        ensures { result ≡ has_colours self depth }
    {
        if depth == 24 {
            self.red & self.green & self.blue
        } else {
            self.composite
        }
    }
}
