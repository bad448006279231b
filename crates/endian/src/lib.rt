// Numbers at a place of a file (document 000, section 4.2, whose names stand above each reader). Every number of artwork is little-endian. A
// reader's contract says value and range, so that its callers need no proof of their own that a cast or a sum fits.
// Stays: (a) a slice and a place: `Reads` says so of both, in these contracts and in every decoder's definition.

#![tactic(auto)]

pub mod big;
mod taken;

ghost use Rattle.std.specs.Prelude.{◌≡◌, ◌+◌, ◌≤◌, length};
ghost use Rattle.std.specs.Float.{binary64};
ghost use Rattle.std.specs.Float.Ieee.{of_bits};
ghost use Rattle.endian.specs.Number.{Reads, signed_at, double_at};

pub use taken::bytes_at;

// BYTE
#[tactic(auto, using(crate::proofs::Width::one))]
pub fn u8_at(s: &[u8], at: usize) -> u8
    requires { at + 1 ≤ length s.now }
    ensures { Reads 1 s.now at result }
{
    s[at]
}

// WORD
#[tactic(auto, using(crate::proofs::Width::reads_le))]
pub fn u16_at(s: &[u8], at: usize) -> u16
    requires { at + 2 ≤ length s.now }
    ensures { Reads 2 s.now at result }
{
    u16::from_le_bytes(bytes_at(s, at))
}

// DWORD
#[tactic(auto, using(crate::proofs::Width::reads_le))]
pub fn u32_at(s: &[u8], at: usize) -> u32
    requires { at + 4 ≤ length s.now }
    ensures { Reads 4 s.now at result }
{
    u32::from_le_bytes(bytes_at(s, at))
}

// The bits of a double: a NaN's travel here, and not in an f64.
#[tactic(auto, using(crate::proofs::Width::reads_le))]
pub fn u64_at(s: &[u8], at: usize) -> u64
    requires { at + 8 ≤ length s.now }
    ensures { Reads 8 s.now at result }
{
    u64::from_le_bytes(bytes_at(s, at))
}

// long
pub fn i32_at(s: &[u8], at: usize) -> i32
    requires { at + 4 ≤ length s.now }
    ensures { result ≡ signed_at s.now at }
{
    i32::from_le_bytes(bytes_at(s, at))
}

// The double of 64 bits, at every pattern: `from_bits` is not defined at a NaN's, so these are told apart first.
pub fn double_of(bits: u64) -> f64
    ensures { result ≡ of_bits binary64 bits }
{
    if 9218868437227405312 < bits % 9223372036854775808 {
        return f64::NAN;
    }
    f64::from_bits(bits)
}

// double
pub fn f64_at(s: &[u8], at: usize) -> f64
    requires { at + 8 ≤ length s.now }
    ensures { result ≡ double_at s.now at }
{
    double_of(u64_at(s, at))
}
