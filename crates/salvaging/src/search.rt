// The next whole record, from a position of a log on.
ghost use Rattle.std.specs.Prelude.{◌≡◌, true, length};
ghost use Rattle.directory.specs.Directory.{directory_kept};
ghost use Rattle.salvaging.specs.Inner.{NextBegin, undecided, search_in, Inside};

use answer::Refusal;
use directory::Directory;

// Where a record begins, its id, and the place behind it.
#[derive(Clone, Copy)]
pub struct Found {
    pub position: usize,
    pub id: u64,
    pub end: usize,
}

// A record is open where the bytes end before it does.
#[derive(Clone, Copy)]
pub enum Search {
    Record(Found),
    Open(usize),
    Nothing,
}

// No other byte opens a record, so that most positions cost no call of the reader.
fn next_begin(log: &[u8], from: usize) -> Option<usize>
    ensures { NextBegin log.now from result }
{
    let rest = log.get(from..)?;
    let behind = rest.iter().position(|byte| *byte == 1)?;
    Some(from + behind)
}

fn is_open(more: bool, x: Refusal) -> bool
    ensures { result ≡ undecided more x }
{
    more && x.answer.number() <= 2
}

// Where more bytes may follow, a record that they could make whole isn't passed over.
pub fn search_in(directory: &Directory, log: &[u8], from: usize, more: bool) -> Search
    ensures { (result ≡ search_in more directory.now log.now from) × Inside result from (length log.now) }
{
    let mut rest = from;
    while let Some(at) = next_begin(log, rest) {
        match replay::check_record_in(directory, log, at) {
            Ok(w) => {
                return Search::Record(Found {
                    position: at,
                    id: w.opened.record_id,
                    end: w.end,
                });
            }
            Err(x) => {
                if is_open(more, x) {
                    return Search::Open(at);
                }
            }
        }
        rest = at + 1;
    }
    Search::Nothing
}

// Under a directory that was tested already.
pub fn search_kept(d: Directory, log: &[u8], from: usize, more: bool) -> Search
    requires { directory_kept d ≡ true }
    ensures { (result ≡ search_in more d log.now from) × Inside result from (length log.now) }
{
    search_in(&d, log, from, more)
}
