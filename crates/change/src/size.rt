// The length of a list's record, before a byte of it is written.
ghost use Rattle.std.specs.Prelude.{◌≡◌, true, ◌≤◌, length};
ghost use Rattle.keys.specs.Keys.{every};
ghost use Rattle.overlay.specs.Rules.{mark_ruled, row_ruled};
ghost use Rattle.change.specs.Change.{change_of, change_ruled};
ghost use Rattle.change.specs.Size.{entry_size, places_size, record_size, sized};

use super::change::LogChange;
use super::ruled::Ruled;
use answer::Answer;
use directory::{Directory, TableKind};
use keys::Keys;

// The bounds here say that no sum wraps.
fn entry_size(kind: TableKind, mark: u64) -> usize
    requires { mark_ruled kind mark ≡ true }
    ensures { (result ≡ entry_size kind mark) × (result ≤ 1043) }
{
    match kind {
        TableKind::Index => 19 + 8 * words::set_bits(mark),
        TableKind::Value => 11 + mark as usize,
        TableKind::RefCount => 19 + 16 * words::set_bits(mark),
    }
}

// The entries of a kind.
#[tactic(auto, using(crate::proofs::Fitting::row_there))]
pub(crate) fn places_size(kind: TableKind, keys: Keys) -> usize
    requires each { every (row_ruled kind keys.rows.now) keys.order.now ≡ true }
    requires few { length keys.order.now ≤ 32 }
    ensures { (result ≡ places_size kind keys.entry.rows.now keys.entry.order.now) × (result ≤ 33376) }
{
    let mut t: usize = 0;
    for place in keys.order {
        let p = *place as usize;
        t += entry_size(kind, keys.rows[4 * p + 3]);
    }
    t
}

impl LogChange {
    // That of a list that keeps the rules that need no directory.
    pub fn record_size_kept(self, words: &[u64], bytes: &[u8]) -> usize
        requires { change_ruled (change_of self words.now bytes.now) ≡ true }
        ensures { result ≡ record_size (change_of self words.now bytes.now) }
    {
        Ruled {
            list: self,
            words,
            bytes,
        }
        .record_size()
    }

    // The length of the record that `flush_to_file` would write.
    pub fn record_size(
        self,
        directory: Directory,
        words: &[u64],
        bytes: &[u8],
    ) -> Result<usize, Answer>
        ensures { result ≡ sized directory (change_of self words.now bytes.now) }
    {
        if !self.kept(directory, words, bytes) {
            return Err(Answer::BadState);
        }
        Ok(self.record_size_kept(words, bytes))
    }
}
