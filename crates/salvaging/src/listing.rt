// The list of a log.
ghost use Rattle.std.specs.Prelude.{◌≡◌};
ghost use Rattle.salvaging.specs.Inner.{Lists};
ghost use Rattle.salvaging.specs.Salvage.{lines_of};

use super::lines::Lines;
use super::search::{Search, search_in};
use directory::Directory;

// It stops at a line that finds no room, and tells how many bytes the records found have: the rest can't change the answer.
pub fn lines_of(directory: &Directory, log: &[u8]) -> Result<Lines, u64>
    ensures { Lists log.now result (lines_of directory.now log.now) }
{
    let mut lines = Lines::new();
    let mut at = 0;
    while let Search::Record(f) = search_in(directory, log, at, false) {
        let bytes = lines.bytes + (f.end - f.position) as u64;
        let Ok(()) = lines.keep(f.position as u64, f.end as u64, f.id) else {
            return Err(bytes);
        };
        at = f.end;
    }
    let Ok(()) = lines.leave_out(log.len() as u64) else {
        return Err(lines.bytes);
    };
    Ok(lines)
}
