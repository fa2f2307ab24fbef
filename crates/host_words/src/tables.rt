// A directory from words, six a table.
ghost use Rattle.std.specs.Prelude.{◌≡◌};
ghost use Rattle.host_words.specs.Tables.{kind_from, broken_directory, directory_from};
ghost use Rattle.host_words.specs.Inner.{row_read, row_added, directory_or_broken};

use directory::{Directory, TableDescription, TableKind};

// The kind that a number is: 0 index, 1 value, any other reference count.
pub fn kind_of(k: u64) -> TableKind
    ensures { result ≡ kind_from k }
{
    match k {
        0 => TableKind::Index,
        1 => TableKind::Value,
        _ => TableKind::RefCount,
    }
}

// The table that six words describe, where each is within its field's range.
#[tactic(auto, unfolding(crate::specs::Tables::row_formed))]
fn row_of(row: &[u64]) -> Option<TableDescription>
    ensures { result ≡ row_read row.now }
{
    let &[kind, number, column, count, length, marks] = row else {
        return None;
    };
    if kind > 2 || marks != 0 {
        return None;
    }
    Some(TableDescription::new(
        kind_of(kind),
        u16::try_from(number).ok()?,
        u8::try_from(column).ok()?,
        u16::try_from(count).ok()?,
        u16::try_from(length).ok()?,
    ))
}

// One table more, where there is room for it.
fn with_row(mut d: Directory, row: &[u64]) -> Option<Directory>
    ensures { result ≡ row_added d row.now }
{
    if d.count >= 16 {
        return None;
    }
    d.tables[d.count] = row_of(row)?;
    d.count += 1;
    Some(d)
}

fn loaded(words: &[u64]) -> Option<Directory>
    ensures { directory_or_broken result ≡ directory_from words.now }
{
    if words.len() % 6 != 0 {
        return None;
    }
    let mut d = Directory::new();
    for row in words.chunks_exact(6) {
        d = with_row(d, row)?;
    }
    Some(d)
}

fn broken() -> Directory
    ensures { result ≡ broken_directory }
{
    let mut d = Directory::new();
    d.count = 17;
    d
}

pub fn directory_of(words: &[u64]) -> Directory
    ensures { result ≡ directory_from words.now }
{
    loaded(words).unwrap_or_else(broken)
}
