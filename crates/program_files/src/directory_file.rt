// A directory's text, read from its file.
ghost use Rattle.std.specs.Prelude.{◌≡◌, true, IfOk};
ghost use Rattle.directory.specs.Directory.{directory_kept};

use super::fault::tell_fault;
use super::message::{Teller, Told};
use super::opening::open_told;
use directory::Directory;
use directory_text::parse;
use log_input::fill;
use std::rt::Files;

// The longest text of a directory, and a byte more, by which a longer one shows.
pub const TEXT_ROOM: usize = 65537;

fn read_text<P: Print>(teller: &Teller<P>, path: &[u8], text: &[u8]) -> Result<Directory, Told>
    ensures { IfOk result (λ directory. directory_kept directory ≡ true) }
{
    let directory = parse(text)
        .map_err(|broken| tell_fault(teller, path, broken.at))?
        .directory;
    if !directory.kept() {
        return Err(teller.tell(path, ": the directory breaks a rule"));
    }
    Ok(directory)
}

// One that keeps the rules.
pub fn read_directory<R: Files, P: Print>(
    files: &R,
    teller: &Teller<P>,
    path: &[u8],
    text: &mut [u8; TEXT_ROOM],
) -> Result<Directory, Told>
    ensures { IfOk result (λ directory. directory_kept directory ≡ true) }
{
    let mut file = open_told(files, teller, path)?;
    let held = fill(&mut file, text, 0).map_err(|unfilled| teller.fail(path, &unfilled.why))?;
    if held == TEXT_ROOM {
        return Err(teller.tell(path, ": more than 65536 bytes"));
    }
    read_text(teller, path, &text[..held])
}
