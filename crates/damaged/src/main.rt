// Each byte of a log of three records damaged in turn, in two ways: what a run answers then, where the record not replayed begins, how many
// were replayed, and where the action at fault begins. A line each, behind the byte's place and what was put to it by exclusive or.
#![tactic(auto)]

ghost use Rattle.std.specs.Prelude.{◌<◌};

use directory::Directory;
use std::io;

const LENGTH: usize = 201;

// What the three tables have.
const IMAGE: usize = 43520;

fn tables() -> Directory {
    match directory_text::parse(b"index 3 0 64\nvalue 7 1 128 20\nrefcount 2 0 8\n") {
        Ok(parsed) => parsed.directory,
        Err(broken) => broken.directory,
    }
}

// The log of the sample that `recover` is run on.
fn write_log(log: &mut [u8; LENGTH]) {
    log[..49].copy_from_slice(
        b"\x01\x01\x00\x00\x00\x00\x00\x00\x00\x02\x03\x00\x00\x00\x00\x00\x00\x00\x00\x00\x05\x00\x00\x00\x00\x00\x00\x00\x11\x11\x00\x00\x00\x00\x00\x00\x22\x22\x00\x00\x00\x00\x00\x00\x04\x2b\x3a\xca\xa3",
    );
    log[49..94].copy_from_slice(
        b"\x01\x02\x00\x00\x00\x00\x00\x00\x00\x03\x07\x00\x05\x00\x00\x00\x00\x00\x00\x00\x74\x77\x65\x6e\x74\x79\x20\x62\x79\x74\x65\x73\x20\x6f\x66\x20\x74\x65\x78\x74\x04\x34\xf0\x70\xcd",
    );
    log[94..].copy_from_slice(
        b"\x01\x03\x00\x00\x00\x00\x00\x00\x00\x06\x02\x00\x01\x00\x00\x00\x00\x00\x00\x00\x00\x00\x00\x00\x00\x00\x00\x80\x07\x00\x00\x00\x00\x00\x00\x00\x00\x00\x00\x00\x00\x00\x00\x00\x02\x03\x00\x3f\x00\x00\x00\x00\x00\x00\x00\x00\x00\x00\x00\x00\x00\x00\x80\x01\x00\x00\x00\x00\x00\x00\x00\x03\x07\x00\x7f\x00\x00\x00\x00\x00\x00\x00\x00\x01\x02\x03\x04\x05\x06\x07\x08\x09\x0a\x0b\x0c\x0d\x0e\x0f\x10\x11\x12\x13\x04\x93\xb5\x50\x82",
    );
}

// The byte is as it was afterwards.
fn damage(
    out: &impl Print,
    directory: Directory,
    log: &mut [u8; LENGTH],
    image: &mut [u8; IMAGE],
    place: usize,
    by: u8,
) -> io::Result<()>
    requires { place < 201 }
{
    log[place] ^= by;
    let ran = replay::run(directory, log, 0, 1, image);
    log[place] ^= by;
    let answer = ran.answer.number();
    let position = ran.position;
    let count = ran.count;
    let fault_at = ran.fault_at;
    println!(out; "{place} {by} {answer} {position} {count} {fault_at}")
}

fn main(rt: HostRuntime) -> io::Result<()> {
    let directory = tables();
    let mut log = [0u8; LENGTH];
    let mut image = [0u8; IMAGE];
    write_log(&mut log);
    for place in 0..LENGTH {
        for by in [1, 255] {
            damage(&rt, directory, &mut log, &mut image, place, by)?;
        }
    }
    Ok(())
}
