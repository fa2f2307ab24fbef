// CRC-32 of ITU-T V.42, in place of crc32fast::Hasher: a register by value, and no state besides.
// A function builds a table that it names on the stack where it starts. So there is a small one only, which `update` lends to what looks in
// it; of many bytes all but the last forty or so go without a table (long.rt).
#![tactic(auto)]

ghost use Rattle.std.specs.Prelude.{◌≡◌, ◌+◌, ◌*◌, ◌≤◌, length, drop};
ghost use Rattle.checksum.specs.Checksum.{bits_in_of, updated, finished, checksum_of};
ghost use Rattle.checksum.specs.Inner.{ahead, carried_number};
ghost use Rattle.checksum.specs.Tables.{shifts, Moved};

mod long;
mod tables;

use long::{Carried, carry_all};
use tables::NIBBLES;
use words::u64_at;

// The register before the first byte.
pub const START: u32 = 4294967295;

// A number moved 32 places and 4 more for each of base, by its digits of 4 bits.
fn by_nibbles(t: &[u32; 256], number: u32, base: usize) -> u32
    requires moved { Moved 4 16 t.now }
    requires base_bound { base ≤ 8 }
    ensures { result ≡ shifts (4 * (base + 8)) number }
{
    let mut r = 0;
    let mut x = number;
    for part in (base..base + 8).rev() {
        r ^= t[part * 16 + (x % 16) as usize];
        x /= 16;
    }
    r
}

// Eight bytes as a number, moved out of the register.
fn word_in(t: &[u32; 256], word: u64) -> u32
    requires { Moved 4 16 t.now }
    ensures { result ≡ shifts 64 word }
{
    let high = (word / 4294967296) as u32;
    let low = (word % 4294967296) as u32;
    by_nibbles(t, high, 0) ^ by_nibbles(t, low, 8)
}

// One byte into the register.
fn byte_in(t: &[u32; 256], r: u32, b: u8) -> u32
    requires { Moved 4 16 t.now }
    ensures { result ≡ bits_in_of 8 r b }
{
    let x = (r ^ u32::from(b)) % 256;
    (r / 256) ^ (t[(x / 16) as usize] ^ t[16 + (x % 16) as usize])
}

// The register after some bytes, eight at a time and then one at a time.
fn bytes_in(t: &[u32; 256], register: u32, bytes: &[u8]) -> u32
    requires { Moved 4 16 t.now }
    ensures { result ≡ updated register bytes.now }
{
    let (words, rest) = bytes.as_chunks::<8>();
    let mut r = register;
    for word in words {
        r = word_in(t, u64::from(r) ^ u64::from_le_bytes(*word));
    }
    for b in rest {
        r = byte_in(t, r, *b);
    }
    r
}

// The first forty bytes, with what was carried to them, into the register.
fn forty_in(t: &[u32; 256], s: Carried, bytes: &[u8]) -> u32
    requires moved { Moved 4 16 t.now }
    requires forty { 40 ≤ length bytes.now }
    ensures { updated result (drop 40 bytes.now) ≡ ahead (carried_number s) bytes.now }
{
    let a = word_in(t, s.0 ^ u64_at(bytes, 0));
    let b = word_in(t, (s.1 ^ u64::from(a)) ^ u64_at(bytes, 8));
    let c = word_in(t, (s.2 ^ u64::from(b)) ^ u64_at(bytes, 16));
    let d = word_in(t, (s.3 ^ u64::from(c)) ^ u64_at(bytes, 24));
    word_in(t, (s.4 ^ u64::from(d)) ^ u64_at(bytes, 32))
}

// Of forty-eight bytes and more all but the last forty to forty-seven are carried on.
fn all_in(t: &[u32; 256], register: u32, bytes: &[u8]) -> u32
    requires { Moved 4 16 t.now }
    ensures { result ≡ updated register bytes.now }
{
    if bytes.len() < 48 {
        return bytes_in(t, register, bytes);
    }
    let at = (bytes.len() - 40) / 8 * 8;
    let last = &bytes[at..];
    let r = forty_in(t, carry_all(register, bytes, at), last);
    bytes_in(t, r, &last[40..])
}

pub fn update(register: u32, bytes: &[u8]) -> u32
    ensures { result ≡ updated register bytes.now }
{
    all_in(&NIBBLES, register, bytes)
}

#[tactic(auto, unfolding(crate::specs::Checksum::finished))]
pub fn finish(register: u32) -> u32
    ensures { result ≡ finished register }
{
    !register
}

#[tactic(auto, unfolding(crate::specs::Checksum::checksum_of))]
pub fn checksum(bytes: &[u8]) -> u32
    ensures { result ≡ checksum_of bytes.now }
{
    finish(update(START, bytes))
}
