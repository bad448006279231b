// The packets that stand for a plane, one after another.
ghost use Rattle.std.specs.Prelude.{◌≡◌, false, ℕ, ◌<◌, ◌≤◌, length, drop, get_or};
ghost use Rattle.std.specs.Iterator.{at_most};
ghost use Rattle.packer.specs.Packing.{three, other_than, until};
ghost use Rattle.packer.specs.Pieces.{Takes, NextPiece};

use crate::equal::equal_front;
use crate::three::three_start;
use packet::Packet;

// A packet, and the bytes of the plane that it stands for.
#[derive(Clone, Copy)]
pub(crate) struct Piece<'a> {
    pub packet: Packet,
    pub bytes: &'a [u8],
}

// How many bytes stand before the next place where three equal bytes start, or before the end, and how many are equal there.
#[derive(Clone, Copy)]
struct Ahead {
    plain: usize,
    same: usize,
}

// The three bytes that are found start the count of equal ones.
fn ahead_of(rest: &[u8]) -> Ahead
    ensures plain_is { result.plain ≡ until (length rest.now) three rest.now }
    ensures same_is { result.same ≡ until (length rest.now) (other_than (get_or rest.now result.plain 0)) (drop result.plain rest.now) }
{
    let plain = three_start(rest);
    if plain == rest.len() {
        return Ahead { plain, same: 0 };
    }
    let same = 3 + equal_front(&rest[plain + 3..], rest[plain]);
    Ahead { plain, same }
}

// The bytes that no packet stands for yet, and what is ahead of them.
#[derive(Clone, Copy)]
pub(crate) struct Packets<'a> {
    rest: &'a [u8],
    plain: usize,
    same: usize,
    ghost plain_is: { plain ≡ until (length rest.now) three rest.now },
    ghost same_is: { same ≡ until (length rest.now) (other_than (get_or rest.now plain 0)) (drop plain rest.now) },
}

impl<'a> Packets<'a> {
    // Three equal bytes start at none of the first places, so many.
    fn behind(rest: &'a [u8], few: usize) -> Self
        requires few_in_bounds { few ≤ length rest.now }
        requires none_before { (k : ℕ) → k < few → three (drop k rest.now) ≡ false }
        ensures { result.rest.now ≡ rest.now }
    {
        let Ahead { plain, same } = ahead_of(&rest[few..]);
        Packets {
            rest,
            plain: few + plain,
            same,
        }
    }

    pub fn new(plane: &'a [u8]) -> Self
        ensures { result.rest.now ≡ plane.now }
    {
        let Ahead { plain, same } = ahead_of(plane);
        Packets {
            rest: plane,
            plain,
            same,
        }
    }

    // How many bytes are left.
    pub fn left(&self) -> usize
        ensures { result ≡ length self.now.rest.now }
    {
        self.rest.len()
    }

    // Literals end where three equal bytes start.
    fn literals(&mut self) -> Piece<'a>
        requires { 0 < self.old.plain }
        ensures { Takes self.old.rest.now result self.new.rest.now }
    {
        let n = self.plain.min(127);
        let (bytes, rest) = self.rest.split_at(n);
        self.rest = rest;
        self.plain -= n;
        Piece {
            packet: Packet::Literals(n as u8),
            bytes,
        }
    }

    // A run takes up to 127 of the equal bytes. Where three are left the next run is known, and fewer are literals.
    fn run(&mut self) -> Piece<'a>
        requires some { 0 < length self.old.rest.now }
        requires at_once { self.old.plain ≡ 0 }
        ensures { Takes self.old.rest.now result self.new.rest.now }
    {
        let byte = self.rest[0];
        let n = self.same.min(127);
        let left = self.same - n;
        let (bytes, rest) = self.rest.split_at(n);
        if left < 3 {
            *self = Packets::behind(rest, left);
        } else {
            self.rest = rest;
            self.same = left;
        }
        Piece {
            packet: Packet::Run(n as u8, byte),
            bytes,
        }
    }
}

// Nothing that is ahead is looked at again.
impl<'a> Iterator for Packets<'a> {
    type Item = Piece<'a>;

    ghost next_gives = { λ s r t. NextPiece s.rest.now r t.rest.now };

    ghost remaining = { λ s. at_most (length s.rest.now) };

    fn next(&mut self) -> Option<Piece<'a>> {
        if self.rest.is_empty() {
            return None;
        }
        if 0 < self.plain {
            return Some(self.literals());
        }
        Some(self.run())
    }
}
