// What holds a block. A place is judged by this, and not by how deep it lies.
ghost use Rattle.std.specs.Prelude.{◌≡◌, ◌<◌};
ghost use Rattle.memory.specs.Parent.{outer, inner, parent_at, column_of};

// Levels left to enter: 2 at the main level, 1 in what a main block holds, 0 in what that holds.
pub const MAIN: usize = 2;

// In the order of the columns of the place grid.
#[derive(Clone, Copy, PartialEq, Eq)]
pub enum Parent {
    Main,
    Bank,
    Layer,
    Selection,
    AlphaBank,
    Alpha,
}

// The main block whose inside is walked, by what it holds: layers, a mask's channel, alpha channels. At the main level it is the last one.
#[derive(Clone, Copy, PartialEq, Eq)]
pub enum Open {
    Layers,
    Mask,
    Alphas,
}

impl Open {
    fn outer(self) -> Parent
        ensures { result ≡ outer self }
    {
        match self {
            Open::Layers => Parent::Bank,
            Open::Mask => Parent::Selection,
            Open::Alphas => Parent::AlphaBank,
        }
    }

    // A selection holds nothing that is entered.
    fn inner(self) -> Parent
        ensures { result ≡ inner self }
    {
        match self {
            Open::Layers => Parent::Layer,
            Open::Mask => Parent::Selection,
            Open::Alphas => Parent::Alpha,
        }
    }
}

impl Parent {
    // How many there are, so that each has a column of the place grid.
    pub(crate) const COUNT: usize = 6;

    // What holds the blocks of a level, by the levels that are left below it.
    #[tactic(auto, unfolding(crate::specs::Parent::parent_at, laws::specs::Choice::pick))]
    pub fn at(opened: Open, levels: usize) -> Parent
        ensures { result ≡ parent_at opened levels }
    {
        match levels {
            MAIN => Parent::Main,
            1 => opened.outer(),
            _ => opened.inner(),
        }
    }

    // Its column of the place grid.
    pub(crate) fn column(self) -> usize
        ensures { (result ≡ column_of self) × (result < 6) }
    {
        self as usize
    }
}
