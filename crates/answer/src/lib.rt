// The answers of a listing by name, and what document 01 tells of each ("Answer numbers"). A refusal is a name from the rule that gives
// it to the edge of the library: no rule, and no walk, knows a number.

#![tactic(auto)]

ghost use Rattle.std.specs.Prelude.{◌≡◌};
ghost use Rattle.answer.specs.declared.Stopped.TheVariants.{Rule};
ghost use Rattle.answer.specs.Answers.{refusal_number, stopped_number, paper};

// What a rule says of a place where it goes no further.
#[derive(Clone, Copy)]
pub enum Refusal {
    // 2
    EndsTooSoon,
    // 5: another mark than a block's
    WrongMark,
    // 6: a length that cannot be
    WrongLength,
    // 7: a known id where it may not stand
    OutOfPlace,
    // 8: a field outside its values
    WrongField,
    // 9: one too many, or no such channel here
    NotExpected,
    // 10: a parent closes incomplete
    Missing,
    // 11: a compression that is not read
    NotReadable,
}

// Why a listing is not accepted: the file header and the table's room have answers of their own beside the rules'.
#[derive(Clone, Copy)]
pub enum Stopped {
    // 1: too long an input
    OverLimit,
    // 3: another signature
    WrongSignature,
    // 4: another version
    WrongVersion,
    Rule(Refusal),
    // 12
    TableFull,
}

// What a listing answers, accepted or not, its place, and how many entries are listed.
#[derive(Clone, Copy)]
pub struct Outcome {
    pub answer: Result<(), Stopped>,
    pub place: usize,
    pub count: usize,
}

// The same on paper.
// Stays: a number beside values, as (a) C has no Result (psp.h).
#[repr(C)]
#[derive(Clone, Copy)]
pub struct Told {
    pub number: u32,
    pub place: usize,
    pub count: usize,
}

impl From<Refusal> for Stopped {
    ghost from_gives = { λ refusal stopped. stopped ≡ Rule refusal };

    fn from(refusal: Refusal) -> Stopped {
        Stopped::Rule(refusal)
    }
}

impl From<Refusal> for u32 {
    ghost from_gives = { λ refusal number. number ≡ refusal_number refusal };

    fn from(refusal: Refusal) -> u32 {
        match refusal {
            Refusal::EndsTooSoon => 2,
            Refusal::WrongMark => 5,
            Refusal::WrongLength => 6,
            Refusal::OutOfPlace => 7,
            Refusal::WrongField => 8,
            Refusal::NotExpected => 9,
            Refusal::Missing => 10,
            Refusal::NotReadable => 11,
        }
    }
}

impl From<Stopped> for u32 {
    ghost from_gives = { λ stopped number. number ≡ stopped_number stopped };

    fn from(stopped: Stopped) -> u32 {
        match stopped {
            Stopped::OverLimit => 1,
            Stopped::WrongSignature => 3,
            Stopped::WrongVersion => 4,
            Stopped::Rule(refusal) => refusal.into(),
            Stopped::TableFull => 12,
        }
    }
}

impl From<Outcome> for Told {
    ghost from_gives = { λ outcome told. told ≡ paper outcome };

    fn from(outcome: Outcome) -> Told {
        let number = match outcome.answer {
            Ok(()) => 0,
            Err(stopped) => stopped.into(),
        };
        Told {
            number,
            place: outcome.place,
            count: outcome.count,
        }
    }
}
