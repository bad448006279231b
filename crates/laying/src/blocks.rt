// A packet's bytes laid by whole blocks of a fixed size, which are written without a count of their bytes. A block may be longer than the
// packet: what it leaves behind the packet's bytes is overwritten by the packets that follow, and lies inside the plane.
ghost use Rattle.std.specs.Prelude.{◌≡◌, ◌++◌, ◌≤◌, length, take, drop, replicate};

// N bytes in front of dest. All are read into a local block before one is written, so that the compiler need not look whether the slices
// overlap.
fn copy_block<const N: usize>(from: &[u8], dest: &mut [u8])
    requires { (N ≤ length from.now) × (N ≤ length dest.old) }
    ensures { dest.new ≡ take N from.now ++ drop N dest.old }
{
    let mut block = [0; N];
    block.copy_from_slice(&from[..N]);
    dest[..N].copy_from_slice(&block);
}

// A byte N times in front of dest.
fn fill_block<const N: usize>(byte: u8, dest: &mut [u8])
    requires { N ≤ length dest.old }
    ensures { dest.new ≡ replicate N byte ++ drop N dest.old }
{
    dest[..N].fill(byte);
}

// n literal bytes stand in front of dest.
pub(crate) fn put_literals(from: &[u8], n: usize, dest: &mut [u8])
    requires { (n ≤ 128) × (128 ≤ length from.now) × (128 ≤ length dest.old) }
    ensures { (length dest.new ≡ length dest.old) × (take n dest.new ≡ take n from.now) }
{
    if n <= 32 {
        copy_block::<32>(from, dest);
    } else if n <= 64 {
        copy_block::<64>(from, dest);
    } else {
        copy_block::<128>(from, dest);
    }
}

// A byte stands n times in front of dest.
pub(crate) fn put_run(byte: u8, n: usize, dest: &mut [u8])
    requires { (n ≤ 128) × (128 ≤ length dest.old) }
    ensures { (length dest.new ≡ length dest.old) × (take n dest.new ≡ replicate n byte) }
{
    if n <= 16 {
        fill_block::<16>(byte, dest);
    } else if n <= 32 {
        fill_block::<32>(byte, dest);
    } else if n <= 64 {
        fill_block::<64>(byte, dest);
    } else {
        fill_block::<128>(byte, dest);
    }
}
