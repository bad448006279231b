// Numbers with the greatest byte first, read and written at a place: a saved table has them so.
ghost use Rattle.std.specs.Prelude.{◌≡◌, ◌+◌, ◌≤◌, length};
ghost use Rattle.laws.specs.Lists.{over};
ghost use Rattle.endian.specs.Number.{ReadsBig, big_bytes_of};

use crate::bytes_at;

#[tactic(auto, using(crate::proofs::Turned::reads_be))]
pub fn u32_at(s: &[u8], at: usize) -> u32
    requires { at + 4 ≤ length s.now }
    ensures { ReadsBig 4 s.now at result }
{
    u32::from_be_bytes(bytes_at(s, at))
}

#[tactic(auto, using(laws::proofs::Part::written, crate::proofs::Turned::four_of))]
pub fn put_u32(dest: &mut [u8], at: usize, n: u32)
    requires { at + 4 ≤ length dest.old }
    ensures { dest.new ≡ over dest.old at (big_bytes_of 4 n) }
{
    dest[at..at + 4].copy_from_slice(&n.to_be_bytes());
}
