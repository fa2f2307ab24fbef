// Bytes written into a lent slice, one after the other: each call gives the place behind what it wrote. log.rs lines 384 to 389.
#![tactic(auto)]

ghost use Rattle.std.specs.Prelude.{◌+◌, ◌≤◌, length};
ghost use Rattle.output.specs.Put.{Wrote, le};

// x in n bytes.
pub fn put_le(out: &mut [u8], at: usize, x: u64, n: usize) -> usize
    requires { at + n ≤ length out.old }
    ensures { Wrote out.old at (le n x) out.new result }
{
    let mut v = x;
    for o in at..at + n {
        out[o] = (v % 256) as u8;
        v /= 256;
    }
    at + n
}

// All of src.
pub fn copy_into(out: &mut [u8], at: usize, src: &[u8]) -> usize
    requires { at + length src.now ≤ length out.old }
    ensures { Wrote out.old at src.now out.new result }
{
    let end = at + src.len();
    words::copy_from_slice(&mut out[at..end], src);
    end
}

pub fn put_u8(out: &mut [u8], at: usize, x: u8) -> usize
    requires { at + 1 ≤ length out.old }
    ensures { Wrote out.old at (le 1 x) out.new result }
{
    put_le(out, at, u64::from(x), 1)
}

pub fn put_u16(out: &mut [u8], at: usize, x: u16) -> usize
    requires { at + 2 ≤ length out.old }
    ensures { Wrote out.old at (le 2 x) out.new result }
{
    put_le(out, at, u64::from(x), 2)
}

pub fn put_u32(out: &mut [u8], at: usize, x: u32) -> usize
    requires { at + 4 ≤ length out.old }
    ensures { Wrote out.old at (le 4 x) out.new result }
{
    put_le(out, at, u64::from(x), 4)
}

pub fn put_u64(out: &mut [u8], at: usize, x: u64) -> usize
    requires { at + 8 ≤ length out.old }
    ensures { Wrote out.old at (le 8 x) out.new result }
{
    put_le(out, at, x, 8)
}
