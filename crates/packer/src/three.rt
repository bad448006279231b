// Where three equal bytes start.
ghost use Rattle.std.specs.Prelude.{◌≡◌, true, false, ℕ, ◌+◌, ◌-◌, ◌<◌, ◌≤◌, length, drop};
ghost use Rattle.packer.specs.Packing.{three, until};

// The first place where three equal bytes start; if there is none, the place two bytes before the end. One pass: `same` carries
// how many equal bytes have just gone by.
fn three_before(rest: &[u8]) -> usize
    ensures within { result ≤ length rest.now - 2 }
    ensures before { (k : ℕ) → k < result → three (drop k rest.now) ≡ false }
    ensures found { result + 3 ≤ length rest.now → three (drop result rest.now) ≡ true }
{
    let Some((first, others)) = rest.split_first() else {
        return 0;
    };
    let mut byte = *first;
    let mut same = 1;
    for (i, next) in others.iter().enumerate() {
        let equal = *next == byte;
        if equal & (same == 2) {
            return i + 1 - same;
        }
        same = if equal { 2 } else { 1 };
        byte = *next;
    }
    rest.len().saturating_sub(2)
}

// Whether three equal bytes start at a place. Without a branch, and neither test is made again by the next place.
fn three_at(rest: &[u8], at: usize) -> bool
    requires { at + 3 ≤ length rest.now }
    ensures { result ≡ three (drop at rest.now) }
{
    (rest[at] == rest[at + 1]) & (rest[at] == rest[at + 2])
}

// If it says no, three equal bytes start at none of the next 16 places. No test waits for another, so that they are made side by side.
// Stays: (b) the place beside the slice. Of an array of 18 bytes the compiler loads each byte once and shifts them into place, and planes
// without runs take 15 to 20 % longer.
fn any_three(rest: &[u8], at: usize) -> bool
    requires { at + 18 ≤ length rest.now }
    ensures { result ≡ false → (k : ℕ) → at ≤ k → k < at + 16 → three (drop k rest.now) ≡ false }
{
    let mut any = false;
    for i in 0..16 {
        any |= three_at(rest, at + i);
    }
    any
}

// Three equal bytes start at none of so many places: block by block.
fn plain_blocks(rest: &[u8]) -> usize
    ensures within { result ≤ length rest.now }
    ensures before { (k : ℕ) → k < result → three (drop k rest.now) ≡ false }
{
    let mut to = 0;
    // Stays: (b) `windows(18).step_by(16)` was tried: with `take_while` a block takes 16 instructions, with `position` 15, and here 14.
    while to + 18 <= rest.len() && !any_three(rest, to) {
        to += 16;
    }
    to
}

// The first place where three equal bytes start, or the end, for many bytes: by blocks.
fn three_far(rest: &[u8]) -> usize
    ensures within { result ≤ length rest.now }
    ensures counted { result ≡ until (length rest.now) three rest.now }
{
    let far = plain_blocks(rest);
    let last = far + three_before(&rest[far..]);
    if 3 <= rest.len() - last {
        last
    } else {
        rest.len()
    }
}

// The same. Few bytes are looked at one by one, and many by blocks, as equal ones are. Compiled on its own, since runs behind runs would pay
// for each register that it takes.
#[inline(never)]
fn three_beyond(rest: &[u8]) -> usize
    ensures within { result ≤ length rest.now }
    ensures counted { result ≡ until (length rest.now) three rest.now }
{
    let near = rest.len().min(8);
    let first = three_before(&rest[..near]);
    if 3 <= near - first {
        return first;
    }
    first + three_far(&rest[first..])
}

// The same. Where a run follows a run, they start at once.
pub(crate) fn three_start(rest: &[u8]) -> usize
    ensures within { result ≤ length rest.now }
    ensures counted { result ≡ until (length rest.now) three rest.now }
{
    let &[a, b, c, ..] = rest else {
        return rest.len();
    };
    if a == b && a == c {
        return 0;
    }
    1 + three_beyond(&rest[1..])
}
