// How many equal bytes stand at the front.
ghost use Rattle.std.specs.Prelude.{◌≡◌, ◌≢◌, true, false, ℕ, ◌<◌, ◌≤◌, length, drop, get_or};
ghost use Rattle.packer.specs.Packing.{other_than, until};

// How many bytes stand before another one, or before the end.
fn before_other(bytes: &[u8], byte: u8) -> usize
    ensures within { result ≤ length bytes.now }
    ensures before { (k : ℕ) → k < result → get_or bytes.now k 0 ≡ byte }
    ensures ended { result < length bytes.now → get_or bytes.now result 0 ≢ byte }
{
    bytes.iter().position(|b| *b != byte).unwrap_or(bytes.len())
}

// If it says yes, all bytes of the block are this one. No test waits for another, so that they are made side by side.
fn all_equal(block: &[u8; 32], byte: u8) -> bool
    ensures { result ≡ true → (k : ℕ) → k < 32 → get_or block.now k 0 ≡ byte }
{
    block.iter().fold(true, |all, b| all & (*b == byte))
}

// So many bytes at the front are all this one: block by block.
// Stays: (d) apart from `plain_blocks`: here a block is a chunk of the plane, and there each block reaches into the next.
fn equal_blocks(rest: &[u8], byte: u8) -> usize
    ensures within { result ≤ length rest.now }
    ensures before { (k : ℕ) → k < result → other_than byte (drop k rest.now) ≡ false }
{
    let mut left = rest;
    while let Some((block, behind)) = left.split_first_chunk::<32>() {
        if !all_equal(block, byte) {
            break;
        }
        left = behind;
    }
    rest.len() - left.len()
}

// How many bytes at the front are this one, for many of them: by blocks.
fn equal_far(rest: &[u8], byte: u8) -> usize
    ensures within { result ≤ length rest.now }
    ensures counted { result ≡ until (length rest.now) (other_than byte) rest.now }
{
    let far = equal_blocks(rest, byte);
    far + before_other(&rest[far..], byte)
}

// The same. Few are looked at one by one, and many by blocks: most runs and literals of artwork are over within the first few, and a block
// would be looked at for nothing.
fn equal_beyond(rest: &[u8], byte: u8) -> usize
    ensures within { result ≤ length rest.now }
    ensures counted { result ≡ until (length rest.now) (other_than byte) rest.now }
{
    let near = rest.len().min(8);
    let first = before_other(&rest[..near], byte);
    if first < near {
        return first;
    }
    near + equal_far(&rest[near..], byte)
}

// The same. A run of three has another byte at once.
pub(crate) fn equal_front(rest: &[u8], byte: u8) -> usize
    ensures within { result ≤ length rest.now }
    ensures counted { result ≡ until (length rest.now) (other_than byte) rest.now }
{
    match rest {
        [first, others @ ..] if *first == byte => 1 + equal_beyond(others, byte),
        _ => 0,
    }
}
