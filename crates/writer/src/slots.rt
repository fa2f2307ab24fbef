// The slots of a chunk that a mask names. log.rs lines 400 to 405 and 422 to 430.
ghost use Rattle.std.specs.Prelude.{◌+◌, ◌*◌, ◌≤◌, length};
ghost use Rattle.output.specs.Put.{Wrote};
ghost use Rattle.writer.specs.Bytes.{set_slots, masked_bytes};

use words::BitRuns;

// A run of set bits is one copy.
fn put_slots(out: &mut [u8], at: usize, width: usize, mask: u64, chunk: &[u8]) -> usize
    requires { (64 * width ≤ length chunk.now) × (at + length (set_slots 64 width mask chunk.now) ≤ length out.old) }
    ensures { Wrote out.old at (set_slots 64 width mask chunk.now) out.new result }
{
    let mut o = at;
    for r in BitRuns::of(mask) {
        let a = r.from * width;
        let e = (r.from + r.count) * width;
        o = output::copy_into(out, o, &chunk[a..e]);
    }
    o
}

pub(crate) fn put_masked(out: &mut [u8], at: usize, width: usize, mask: u64, chunk: &[u8]) -> usize
    requires { (64 * width ≤ length chunk.now) × (at + length (masked_bytes width mask chunk.now) ≤ length out.old) }
    ensures { Wrote out.old at (masked_bytes width mask chunk.now) out.new result }
{
    let a = output::put_u64(out, at, mask);
    put_slots(out, a, width, mask, chunk)
}
