// A change list's head from words and back.
ghost use Rattle.std.specs.Prelude.{◌≡◌, length};
ghost use Rattle.host_words.specs.Change.{counts_from, broken_list, list_from, counts_words, drops_words, list_words_of};
ghost use Rattle.host_words.specs.Inner.{drops_read, list_read};

use change::{Drops, LogChange};
use memory::Counts;

pub(crate) fn counts_of(words: &[u64]) -> Counts
    requires { length words.now ≡ 3 }
    ensures { result ≡ counts_from words.now 0 }
{
    Counts {
        index: words[0] as usize,
        value: words[1] as usize,
        ref_count: words[2] as usize,
    }
}

// A count and 16 table numbers, where each is one.
fn drops_of(words: &[u64]) -> Option<Drops>
    requires { length words.now ≡ 17 }
    ensures { result ≡ drops_read words.now 0 }
{
    let mut tables = [0; 16];
    for (i, word) in words[1..].iter().enumerate() {
        tables[i] = u16::try_from(*word).ok()?;
    }
    Some(Drops {
        tables,
        count: words[0] as usize,
    })
}

fn loaded(words: &[u64]) -> Option<LogChange>
    ensures { result ≡ list_read words.now }
{
    if words.len() != 38 {
        return None;
    }
    Some(LogChange {
        record_id: words[0],
        counts: counts_of(&words[1..4]),
        dropped_tables: drops_of(&words[4..21])?,
        dropped_ref_count_tables: drops_of(&words[21..])?,
    })
}

fn broken() -> LogChange
    ensures { result ≡ broken_list }
{
    let mut list = LogChange::new(0);
    list.dropped_tables.count = 17;
    list
}

#[tactic(auto, unfolding(crate::specs::Change::list_from))]
pub fn list_of(words: &[u64]) -> LogChange
    ensures { result ≡ list_from words.now }
{
    loaded(words).unwrap_or_else(broken)
}

pub(crate) fn counts_words(counts: Counts) -> [u64; 3]
    ensures { result ≡ counts_words counts }
{
    [
        counts.index as u64,
        counts.value as u64,
        counts.ref_count as u64,
    ]
}

fn drops_words(drops: Drops) -> [u64; 17]
    ensures { result ≡ drops_words drops }
{
    let mut words = [0; 17];
    words[0] = drops.count as u64;
    words[1..].copy_from_slice(&drops.tables.map(u64::from));
    words
}

pub fn list_words(list: LogChange) -> [u64; 38]
    ensures { result ≡ list_words_of list }
{
    let mut words = [0; 38];
    words[0] = list.record_id;
    words[1..4].copy_from_slice(&counts_words(list.counts));
    words[4..21].copy_from_slice(&drops_words(list.dropped_tables));
    words[21..].copy_from_slice(&drops_words(list.dropped_ref_count_tables));
    words
}
