// Bit depths, and counts of colours against them. No test here asks that the depth is one of the four.
// Stays: a depth is a number and no enum, as (d) the rules count with it (2 to the depth, the bits of a pixel), judge it in its turn among
// the chunk's fields, and have 0 for an image that is not read yet.
ghost use Rattle.std.specs.Prelude.{◌≡◌, ◌≤◌, ◌<◌, ◌^◌, eqb, leb, SomeIff};
ghost use Rattle.attributes.specs.Depth.{is_depth, colour_bits, colour_channels, colour_short};

pub fn permitted(depth: u16) -> bool
    ensures { result ≡ is_depth depth }
{
    matches!(depth, 1 | 4 | 8 | 24)
}

// 2 to the depth, where 32 bits hold it.
fn colours(depth: u16) -> Option<u32>
    ensures { SomeIff result (depth < 32) (2 ^ depth) }
{
    1u32.checked_shl(u32::from(depth))
}

// Whether a count is 2 to the depth.
#[tactic(auto, using(crate::proofs::Counts::not_full))]
pub fn full(count: u32, depth: u16) -> bool
    ensures { result ≡ eqb count (2 ^ depth) }
{
    colours(depth).is_some_and(|all| count == all)
}

// Whether a count is at most 2 to the depth.
#[tactic(auto, using(crate::proofs::Counts::all_within))]
pub fn within(count: u32, depth: u16) -> bool
    ensures { result ≡ leb count (2 ^ depth) }
{
    colours(depth).is_none_or(|most| count <= most)
}

// How many colour channels a layer has.
pub fn channels(depth: u16) -> u32
    ensures { (result ≡ colour_channels depth) × (result ≤ 3) }
{
    if depth == 24 { 3 } else { 1 }
}

// The bits of a pixel in a colour plane: of the depths 1, 4, 8 and 24, the depth below 24, else 8. Never more than 8, whatever the depth.
#[tactic(auto, unfolding(crate::specs::Depth::colour_bits))]
pub fn bits(depth: u16) -> u32
    ensures { (result ≡ colour_bits depth) × (result ≤ 8) }
{
    u32::from(depth.min(8))
}

// Whether the rows of a colour plane may be short: as many bytes as pixels, without padding.
pub fn short(depth: u16) -> bool
    ensures { result ≡ colour_short depth }
{
    matches!(depth, 8 | 24)
}
