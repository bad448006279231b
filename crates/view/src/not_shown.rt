// Why a view shows nothing, by name; numbers are for the edge alone.
ghost use Rattle.view.specs.NotShown.{lacking_number, not_shown_number};
ghost use Rattle.view.specs.declared.not_shown.NotShown.TheVariants.{Listing, Lacks};
ghost use Rattle.std.specs.Prelude.{◌≡◌};

use answer::Stopped;

// What an accepted input has not.
#[derive(Clone, Copy)]
pub enum Lacking {
    // 43: a palette, at depth 24
    Palette,
    // 44: a palette, where the ramp that would stand in for one has another length
    Ramp,
    // 45
    Layer,
    // 46
    Selection,
    // 47
    Alpha,
    // What a caller says of a kind of block that no view here shows: any number of its own.
    Other(u32),
}

// What stopped the listing; or, of an accepted input, what it lacks.
#[derive(Clone, Copy)]
pub enum NotShown {
    Listing(Stopped),
    Lacks(Lacking),
}

impl From<Stopped> for NotShown {
    ghost from_gives = { λ stopped not_shown. not_shown ≡ Listing stopped };

    fn from(stopped: Stopped) -> NotShown {
        NotShown::Listing(stopped)
    }
}

impl From<Lacking> for NotShown {
    ghost from_gives = { λ lacking not_shown. not_shown ≡ Lacks lacking };

    fn from(lacking: Lacking) -> NotShown {
        NotShown::Lacks(lacking)
    }
}

impl From<Lacking> for u32 {
    ghost from_gives = { λ lacking number. number ≡ lacking_number lacking };

    fn from(lacking: Lacking) -> u32 {
        match lacking {
            Lacking::Palette => 43,
            Lacking::Ramp => 44,
            Lacking::Layer => 45,
            Lacking::Selection => 46,
            Lacking::Alpha => 47,
            Lacking::Other(number) => number,
        }
    }
}

impl From<NotShown> for u32 {
    ghost from_gives = { λ not_shown number. number ≡ not_shown_number not_shown };

    fn from(not_shown: NotShown) -> u32 {
        match not_shown {
            NotShown::Listing(stopped) => stopped.into(),
            NotShown::Lacks(lacking) => lacking.into(),
        }
    }
}
