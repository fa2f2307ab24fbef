// The files found, one by one.
ghost use Rattle.std.specs.Prelude.{◌≡◌, ◌*◌, ◌<◌, length, eqb};
ghost use Rattle.std.specs.Iterator.{YieldsFirst, item_count};
ghost use Rattle.found.specs.Logs.{removed_one, kept_one, total, belong};
ghost use Rattle.found.specs.Found.{found_files};

use super::name::log_name;
use super::sorted::LogFile;

// The number that the file's name says, if it is a log's, the file's length, and bytes 1 to 8 of it.
#[derive(Clone, Copy)]
pub struct FoundFile {
    pub number: Option<u64>,
    pub size: u64,
    pub id: u64,
}

impl FoundFile {
    // The number, if the file is to be removed.
    pub(crate) fn removed(self) -> Option<u64>
        ensures { result ≡ removed_one self.number self.size }
    {
        if self.size < 9 { self.number } else { None }
    }

    // The file, if it is kept.
    pub(crate) fn kept(self) -> Option<LogFile>
        ensures { result ≡ kept_one self.number self.size self.id }
    {
        let number = self.number?;
        if self.size < 9 {
            return None;
        }
        Some(LogFile {
            id: self.id,
            number,
        })
    }
}

// Whether the lengths make up so many bytes.
fn make_up(name_lengths: &[usize], bytes: usize) -> bool
    ensures { result ≡ eqb (total name_lengths.now) bytes }
{
    let mut left = bytes;
    for n in name_lengths {
        if left < *n {
            return false;
        }
        left -= *n;
    }
    left == 0
}

#[tactic(auto, unfolding(crate::specs::Logs::belong))]
pub(crate) fn belong(names: &[u8], name_lengths: &[usize], lengths: &[u64], heads: &[u8]) -> bool
    ensures { result ≡ belong names.now name_lengths.now lengths.now heads.now }
{
    make_up(name_lengths, names.len())
        && lengths.len() == name_lengths.len()
        && heads.len() % 9 == 0
        && heads.len() / 9 == name_lengths.len()
}

// The names' bytes one behind the other, and the length of each; each file's length, and its first 9 bytes, zeros behind a shorter one's.
#[derive(Clone, Copy)]
pub struct FoundFiles<'a> {
    pub names: &'a [u8],
    pub name_lengths: &'a [usize],
    pub lengths: &'a [u64],
    pub heads: &'a [u8],
    ghost bytes: { total name_lengths.now ≡ length names.now },
    ghost sizes: { length lengths.now ≡ length name_lengths.now },
    ghost firsts: { length heads.now ≡ 9 * length name_lengths.now },
    ghost countable: { length name_lengths.now < 18446744073709551616 },
}

impl<'a> Iterator for FoundFiles<'a> {
    type Item = FoundFile;

    ghost next_gives = { YieldsFirst (λ s. found_files s.names.now s.name_lengths.now s.lengths.now s.heads.now) };

    ghost remaining = { item_count (λ s. found_files s.names.now s.name_lengths.now s.lengths.now s.heads.now) };

    fn next(&mut self) -> Option<FoundFile> {
        let (n, name_lengths) = self.name_lengths.split_first()?;
        let (name, names) = self.names.split_at(*n);
        let file = FoundFile {
            number: log_name(name),
            size: self.lengths[0],
            id: words::u64_at(self.heads, 1),
        };
        *self = FoundFiles {
            names,
            name_lengths,
            lengths: &self.lengths[1..],
            heads: &self.heads[9..],
        };
        Some(file)
    }
}
