// Stores into the image.
ghost use Rattle.std.specs.Prelude.{◌≡◌, ◌+◌, ◌*◌, ◌≤◌, length};
ghost use Rattle.std.specs.Int.Count.{ones};
ghost use Rattle.effect.specs.Effect.{slot_strokes, puts};

use words::BitRuns;

// the set bits of the mask, lowest first: the next `width` bytes of the entries for each, a run of them at a stroke
pub fn put_slots(image: &mut [u8], at: usize, width: usize, mask: u64, entries: &[u8])
    requires { (at + 64 * width ≤ length image.old) × (ones mask * width ≤ length entries.now) }
    ensures { image.new ≡ puts (slot_strokes 64 width at mask entries.now) image.old }
{
    let mut f = 0;
    for r in BitRuns::of(mask) {
        let p = at + r.from * width;
        let n = r.count * width;
        words::copy_from_slice(&mut image[p..p + n], &entries[f..f + n]);
        f += n;
    }
}
