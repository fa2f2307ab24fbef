// The call: nothing is written before the list is whole and the output is known to be long enough.
ghost use Rattle.std.specs.Prelude.{◌≡◌, ◌≢◌, true, length, IfErr};
ghost use Rattle.directory.specs.Directory.{directory_kept};
ghost use Rattle.salvaging.specs.Salvage.{lines_of, salvage_by, salvage_of, left_of};

use super::copying::{put_lines, put_records};
use super::listing::lines_of;
use answer::Answer;
use directory::Directory;

// How many lines stand in the list's memory, and how many bytes at the output's front.
#[derive(Clone, Copy)]
pub struct Salvaged {
    pub lines: usize,
    pub written: usize,
}

// Under a directory that was tested already, and memory for 64 lines.
#[tactic(auto, using(crate::proofs::Calls::no_room))]
pub fn salvage_kept(
    d: Directory,
    log: &[u8],
    out: &mut [u8],
    list: &mut [u64],
) -> Result<Salvaged, Answer>
    requires { (directory_kept d ≡ true) × (length list.old ≡ 256) }
    ensures refused { IfErr result (λ a. a ≢ Answer.Done) }
    ensures left { left_of result out.new list.new ≡ salvage_by log.now (lines_of d log.now) out.old list.old }
{
    let lines = match lines_of(&d, log) {
        Ok(lines) => lines,
        Err(_) => return Err(Answer::NoRoom),
    };
    let written = lines.bytes as usize;
    if out.len() < written {
        return Err(Answer::ShortOutput);
    }
    put_records(lines.all(), log, out);
    put_lines(lines.all(), list);
    Ok(Salvaged {
        lines: lines.count,
        written,
    })
}

// Finds the whole records of a log, copies them to the output's front, and lists them and what lies between.
pub fn salvage(
    d: Directory,
    log: &[u8],
    out: &mut [u8],
    list: &mut [u64],
) -> Result<Salvaged, Answer>
    ensures refused { IfErr result (λ a. a ≢ Answer.Done) }
    ensures left { left_of result out.new list.new ≡ salvage_of d log.now out.old list.old }
{
    if !d.kept() || list.len() != 256 {
        return Err(Answer::BadState);
    }
    salvage_kept(d, log, out, list)
}
