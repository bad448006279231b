// What the program prints of an input: a line for the answer, and a line for each entry. Standard input is read elsewhere, so that this
// works on a slice.
ghost use Rattle.std.specs.Prelude.{◌≡◌};
ghost use Rattle.listing.specs.Listing.{left_by};
ghost use Rattle.psplist.specs.Program.{program_lists};

use answer::{Outcome, Stopped, Told};
use entry::{Content, Entry};
use headers::kind::Kind;
use std::io::Write;
use std::{fmt, io};

// Bytes of the program's input, and the numbers of a table with room for its 512 entries.
pub const INPUT: usize = 65536;

const TABLE: usize = 7168;

// The listing, under the program's own limit.
pub fn list(input: &[u8], table: &mut [u32]) -> Outcome
    ensures { left_by result table.new ≡ program_lists input.now table.old }
{
    if INPUT < input.len() {
        return Outcome {
            answer: Err(Stopped::OverLimit),
            place: 0,
            count: 0,
        };
    }
    listing::list(input, table)
}

pub fn show(out: &mut impl Write, input: &[u8]) -> io::Result<()> {
    let mut table = [0; TABLE];
    let told = Told::from(list(input, &mut table));
    writeln!(
        out,
        "answer {} place {} entries {}",
        told.number, told.place, told.count
    )?;
    let (entries, _) = table.as_chunks::<{ Entry::SIZE }>();
    for (index, numbers) in entries.iter().take(told.count).enumerate() {
        writeln!(out, "{index} {}", Line(Entry::read(numbers, 0)))?;
    }
    Ok(())
}

// An entry as its line has it, behind the index.
#[derive(Clone, Copy)]
struct Line(Entry);

impl fmt::Display for Line {
    fn fmt<W: fmt::Write>(&self, f: &mut fmt::Formatter<W>) -> fmt::Result {
        let e = self.0;
        let block = e.block;
        if block.skipped != 0 {
            return write!(f, "skip{}{} {}", Common(e), Stored(e.content), block.id);
        }
        let kind = kind(block.id);
        write!(f, "{}{}", name(kind), Common(e))?;
        match kind {
            Some(Kind::Palette) => write!(f, "{}", Stored(e.content)),
            Some(Kind::Layer | Kind::Alpha) => write!(f, " {}", e.layer),
            Some(Kind::Channel) => write!(f, "{}", Plane(e)),
            _ => Ok(()),
        }
    }
}

// What a block is, by its entry's id.
fn kind(id: u32) -> Option<Kind> {
    Kind::try_from(u16::try_from(id).ok()?).ok()
}

// The kind of a block that is not skipped, in a word. What is none of those before is a channel.
fn name(kind: Option<Kind>) -> &'static str {
    match kind {
        Some(Kind::Image) => "image",
        Some(Kind::Palette) => "palette",
        Some(Kind::Bank) => "bank",
        Some(Kind::Layer) => "layer",
        Some(Kind::Selection) => "selection",
        Some(Kind::AlphaBank) => "alphabank",
        Some(Kind::Alpha) => "alpha",
        _ => "channel",
    }
}

// The numbers that every kind has.
#[derive(Clone, Copy)]
struct Common(Entry);

impl fmt::Display for Common {
    fn fmt<W: fmt::Write>(&self, f: &mut fmt::Formatter<W>) -> fmt::Result {
        let block = self.0.block;
        write!(f, " {} {} {}", block.level, block.place, block.owned)
    }
}

// Where content is.
#[derive(Clone, Copy)]
struct Stored(Content);

impl fmt::Display for Stored {
    fn fmt<W: fmt::Write>(&self, f: &mut fmt::Formatter<W>) -> fmt::Result {
        write!(f, " {} {}", self.0.start, self.0.stored)
    }
}

// The numbers that a channel has.
#[derive(Clone, Copy)]
struct Plane(Entry);

impl fmt::Display for Plane {
    fn fmt<W: fmt::Write>(&self, f: &mut fmt::Formatter<W>) -> fmt::Result {
        let e = self.0;
        write!(
            f,
            " {} {} {}{}",
            e.layer,
            e.code.bitmap,
            e.code.channel,
            Stored(e.content)
        )?;
        write!(
            f,
            " {} {} {} {}",
            e.size.width, e.size.height, e.size.plane, e.size.row
        )
    }
}
