// Values of CRC-32 from outside, held against the crate `checksum`: a line each, "ok" and the name, or the number that came out instead.
#![tactic(auto)]

ghost use Rattle.std.specs.Prelude.{◌≤◌, length};

use checksum::START;
use std::io;

fn tell(out: &impl Print, name: &str, found: u32, due: u32) -> io::Result<()> {
    if found == due {
        println!(out; "ok {name}")
    } else {
        println!(out; "{found:08x} {name}")
    }
}

fn hold(out: &impl Print, name: &str, bytes: &[u8], due: u32) -> io::Result<()> {
    tell(out, name, checksum::checksum(bytes), due)
}

// The bytes first, first + step, .., modulo 256.
fn fill(bytes: &mut [u8], first: u8, step: u8) {
    let mut b = first;
    for x in bytes {
        *x = b;
        b = b.wrapping_add(step);
    }
}

// What a host does that has the bytes in two pieces.
fn in_two(bytes: &[u8], cut: usize) -> u32
    requires { cut ≤ length bytes.now }
{
    let (front, rest) = bytes.split_at(cut);
    checksum::finish(checksum::update(checksum::update(START, front), rest))
}

// Published values of CRC-32, these and those of `runs`. Python's zlib.crc32 gives the same.
fn strings(out: &impl Print) -> io::Result<()> {
    hold(out, "empty", b"", 0x0000_0000)?;
    hold(out, "a", b"a", 0xe8b7_be43)?;
    hold(out, "abc", b"abc", 0x3524_41c2)?;
    hold(out, "message digest", b"message digest", 0x2015_9d7f)?;
    hold(out, "a to z", b"abcdefghijklmnopqrstuvwxyz", 0x4c27_50bd)?;
    hold(out, "1 to 9", b"123456789", 0xcbf4_3926)?;
    hold(
        out,
        "quick brown fox",
        b"The quick brown fox jumps over the lazy dog",
        0x414f_a339,
    )
}

fn runs(out: &impl Print) -> io::Result<()> {
    let mut bytes = [0u8; 32];
    hold(out, "32 bytes 00", &bytes, 0x190a_55ad)?;
    fill(&mut bytes, 255, 0);
    hold(out, "32 bytes ff", &bytes, 0xff6c_ab0b)?;
    fill(&mut bytes, 0, 1);
    hold(out, "bytes 00 to 1f", &bytes, 0x9126_7e8a)
}

// Long enough for the large table. These are not published: the numbers are Python's zlib.crc32's, and those in the trailer that gzip writes.
// 1,039 is 64 times sixteen, and fifteen more.
fn long(out: &impl Print) -> io::Result<()> {
    let zeros = [0u8; 4096];
    hold(out, "4096 bytes 00", &zeros, 0xc71c_0011)?;
    let mut some = [0u8; 1039];
    fill(&mut some, 200, 11);
    hold(out, "1039 bytes by 11", &some, 0xd683_caa4)?;
    let mut many = [0u8; 65537];
    fill(&mut many, 3, 7);
    hold(out, "65537 bytes by 7", &many, 0x3201_663c)?;
    tell(
        out,
        "65537 bytes by 7, cut at 30001",
        in_two(&many, 30001),
        0x3201_663c,
    )?;
    tell(
        out,
        "65537 bytes by 7, cut at 1023",
        in_two(&many, 1023),
        0x3201_663c,
    )
}

fn main(rt: HostRuntime) -> io::Result<()> {
    strings(&rt)?;
    runs(&rt)?;
    long(&rt)
}
