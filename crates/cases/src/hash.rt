// A hash, so that a line shows every byte of a buffer: FNV-1a, 32 bits.
pub const START: u32 = 2166136261;

const PRIME: u32 = 16777619;

fn mix(hash: u32, byte: u8) -> u32 {
    (hash ^ u32::from(byte)).wrapping_mul(PRIME)
}

fn mix_bytes(before: u32, bytes: &[u8]) -> u32 {
    bytes.iter().fold(before, |hash, byte| mix(hash, *byte))
}

// A number's four bytes, little-endian.
pub fn mix_number(before: u32, n: u32) -> u32 {
    mix_bytes(before, &n.to_le_bytes())
}

// With numbers behind what was hashed before.
pub fn mix_numbers(before: u32, numbers: &[u32]) -> u32 {
    numbers.iter().fold(before, |hash, n| mix_number(hash, *n))
}

pub fn of_bytes(bytes: &[u8]) -> u32 {
    mix_bytes(START, bytes)
}

pub fn of_numbers(numbers: &[u32]) -> u32 {
    mix_numbers(START, numbers)
}
