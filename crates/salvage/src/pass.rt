// A log of any length, salvaged through a window of fixed length.
//
// A record looks at nothing behind itself, and its faults are found in byte order: what is seen of a position in the first bytes of a log is what
// is seen there in all of it, unless the record is open. So the window is moved to the first open record and filled again.
ghost use Rattle.std.specs.Prelude.{◌≡◌, ◌+◌, ◌≤◌, true, length, IfOk};
ghost use Rattle.directory.specs.Directory.{directory_kept};
ghost use Rattle.salvage.specs.Bounds.{Covering, Within};

use directory::Directory;
use log_input::{ROOM, fill, move_front};
use salvaging::{Lines, Search, search_kept};
use std::io;
use std::io::{Read, Write};

// Nothing says that a file ends, so the turns are counted, up to a number that no file reaches: its positions stay below 2^61.
const TURNS: u64 = 1099511627776;

// Why a log was not salvaged: where the line begins that finds no room in the list, where the record that passes the window, or what failed.
#[derive(Clone, Copy)]
pub enum Stop {
    ManyLines(u64),
    TooLong(u64),
    Unreadable(io::Error),
    Unwritable(io::Error),
}

// The lines so far, and how far a window was gone through.
#[derive(Clone, Copy)]
pub struct Taken {
    pub lines: Lines,
    pub at: usize,
}

// Writes the records of a window as they are found, up to one that is open.
fn keep_records<W: Write>(
    out: &mut W,
    directory: Directory,
    bytes: &[u8],
    base: u64,
    more: bool,
    before: Lines,
) -> Result<Taken, Stop>
    requires { (directory_kept directory ≡ true) × (Covering before base) × (base + length bytes.now ≤ 18446744073709551615) }
    ensures { IfOk result (λ taken. Within taken base (length bytes.now)) }
{
    let mut lines = before;
    let mut at = 0;
    loop {
        match search_kept(directory, bytes, at, more) {
            Search::Nothing => {
                return Ok(Taken {
                    lines,
                    at: bytes.len(),
                });
            }
            Search::Open(place) => return Ok(Taken { lines, at: place }),
            Search::Record(found) => {
                at = found.end;
                out.write_all(&bytes[found.position..at])
                    .map_err(Stop::Unwritable)?;
                let from = base + found.position as u64;
                let to = base + at as u64;
                lines.keep(from, to, found.id).map_err(Stop::ManyLines)?;
            }
        }
    }
}

// A window that nothing follows.
fn last_window<W: Write>(
    out: &mut W,
    directory: Directory,
    bytes: &[u8],
    base: u64,
    before: Lines,
) -> Result<Lines, Stop>
    requires { (directory_kept directory ≡ true) × (Covering before base) × (base + length bytes.now ≤ 18446744073709551615) }
    ensures { IfOk result (λ lines. lines.count ≤ 64) }
{
    let taken = keep_records(out, directory, bytes, base, false, before)?;
    let mut lines = taken.lines;
    lines
        .leave_out(base + bytes.len() as u64)
        .map_err(Stop::ManyLines)?;
    Ok(lines)
}

// Goes through a log from its front and writes its records to the output. The window stands at a base, and holds the rest of the one before.
pub fn salvage_file<R: Read, W: Write>(
    file: &mut R,
    out: &mut W,
    directory: Directory,
    window: &mut [u8; ROOM],
) -> Result<Lines, Stop>
    requires { directory_kept directory ≡ true }
    ensures { IfOk result (λ lines. lines.count ≤ 64) }
{
    let mut lines = Lines::new();
    let mut base = 0;
    let mut rest = 0;
    for _turn in 0..TURNS {
        let held = fill(file, window, rest).map_err(|unfilled| Stop::Unreadable(unfilled.why))?;
        if held < ROOM {
            return last_window(out, directory, &window[..held], base, lines);
        }
        let taken = keep_records(out, directory, window, base, true, lines)?;
        if taken.at == 0 {
            // An open record at the window's front passes it, if the file goes on.
            return match fill(file, &mut [0u8; 1], 0).map_err(|unfilled| Stop::Unreadable(
                unfilled.why,
            ))? {
                0 => last_window(out, directory, window, base, lines),
                _ => Err(Stop::TooLong(base)),
            };
        }
        lines = taken.lines;
        base += taken.at as u64;
        rest = move_front(window, taken.at, ROOM);
    }
    Err(Stop::Unreadable(io::Error::other("the file has no end")))
}
