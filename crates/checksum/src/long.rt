// Many bytes, without a table: x^300 + x^155 + x^117 + x^89 + 1 is a multiple of the polynomial, so a word need not be divided where it
// stands. It is added 145, 183, 211 and 300 places further on instead.
ghost use Rattle.std.specs.Prelude.{◌≡◌, ◌+◌, ◌%◌, ◌^◌, ◌≤◌, ◌<◌, length, drop};
ghost use Rattle.std.specs.Int.Bits.{bit_xor};
ghost use Rattle.checksum.specs.Checksum.{updated};
ghost use Rattle.checksum.specs.Inner.{ahead, carried_behind, carried_number, spread};

// What is to be added to the next five words, the nearest one first.
#[derive(Clone, Copy)]
pub struct Carried(pub u64, pub u64, pub u64, pub u64, pub u64);

// The next word is passed: what it comes to is carried to those behind it. That a word has 64 bits is said for whoever carries one through a
// loop.
fn carry(s: Carried, word: u64) -> Carried
    ensures { (s.0 < 2 ^ 64) × (carried_number result ≡ bit_xor (carried_behind s) (spread (bit_xor s.0 word))) }
{
    let w = s.0 ^ word;
    Carried(
        s.1,
        s.2 ^ ((w << 17) ^ (w << 55)),
        s.3 ^ (((w >> 47) ^ (w >> 9)) ^ (w << 19)),
        s.4 ^ ((w >> 45) ^ (w << 44)),
        w >> 20,
    )
}

// What is carried behind the bytes up to a place, with forty bytes or more left.
pub fn carry_all(register: u32, bytes: &[u8], to: usize) -> Carried
    requires { (to % 8 ≡ 0) × (to + 40 ≤ length bytes.now) }
    ensures { ahead (carried_number result) (drop to bytes.now) ≡ updated register bytes.now }
{
    let mut s = Carried(u64::from(register), 0, 0, 0, 0);
    for word in bytes[..to].as_chunks::<8>().0 {
        s = carry(s, u64::from_le_bytes(*word));
    }
    s
}
