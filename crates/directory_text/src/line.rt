// A line of the text.
ghost use Rattle.std.specs.Prelude.{◌≡◌, ◌≤◌, IfOk};
ghost use Rattle.directory_text.specs.Line.{number_in, length_in, table_in, kind_of, line_in};
ghost use Rattle.directory_text.specs.Inner.{taken};

use super::fault::Fault;
use super::number::{NotNumber, number_of};
use super::scan::{behind_blanks, first_word, split_before};
use directory::{TableDescription, TableKind};

// The next word as a number of at most so much, and what stands behind it; `which` is its place in the line.
#[tactic(auto, unfolding(crate::specs::Line::number_in, crate::specs::Line::fitted, crate::specs::Scan::is_none))]
fn number_at(code: &[u8], which: u8, most: u64) -> Result<(u64, &[u8]), Fault>
    ensures number { taken result ≡ number_in which most code.now }
    ensures small { IfOk result (λ number. number.0 ≤ most) }
{
    let (word, rest) = first_word(code);
    if word.is_empty() {
        return Err(Fault::Missing(which));
    }
    match number_of(word) {
        Ok(number) => {
            if number <= most {
                Ok((number, rest))
            } else {
                Err(Fault::TooLarge(which))
            }
        }
        Err(NotNumber::NotDecimal) => Err(Fault::NotDecimal(which)),
        Err(NotNumber::TooLarge) => Err(Fault::TooLarge(which)),
    }
}

// A value's length; tables of the other kinds have none.
#[tactic(auto, unfolding(crate::specs::Line::length_in))]
fn length_at(code: &[u8], kind: TableKind) -> Result<(u64, &[u8]), Fault>
    ensures number { taken result ≡ length_in kind code.now }
    ensures small { IfOk result (λ number. number.0 ≤ 65535) }
{
    match kind {
        TableKind::Value => number_at(code, 4, 65535),
        TableKind::Index | TableKind::RefCount => Ok((0, code)),
    }
}

#[tactic(auto, unfolding(crate::specs::Line::table_in))]
fn table_of(code: &[u8], kind: TableKind) -> Result<TableDescription, Fault>
    ensures { result ≡ table_in kind code.now }
{
    let (number, code) = number_at(code, 1, 65535)?;
    let (column, code) = number_at(code, 2, 255)?;
    let (count, code) = number_at(code, 3, 65535)?;
    let (length, code) = length_at(code, kind)?;
    if !behind_blanks(code).is_empty() {
        return Err(Fault::MoreWords);
    }
    Ok(TableDescription::new(
        kind,
        number as u16,
        column as u8,
        count as u16,
        length as u16,
    ))
}

#[tactic(auto, unfolding(crate::specs::Line::kind_of))]
fn kind_of(word: &[u8]) -> Option<TableKind>
    ensures { result ≡ kind_of word.now }
{
    if word == b"index".as_slice() {
        Some(TableKind::Index)
    } else if word == b"value".as_slice() {
        Some(TableKind::Value)
    } else if word == b"refcount".as_slice() {
        Some(TableKind::RefCount)
    } else {
        None
    }
}

// The table that a line describes, if it describes one: # begins a comment.
#[tactic(auto, unfolding(crate::specs::Line::line_in, crate::specs::Line::code_in))]
pub fn line_of(line: &[u8]) -> Result<Option<TableDescription>, Fault>
    ensures { result ≡ line_in line.now }
{
    let (code, _) = split_before(line, b'#');
    let (word, rest) = first_word(code);
    if word.is_empty() {
        return Ok(None);
    }
    let Some(kind) = kind_of(word) else {
        return Err(Fault::UnknownKind);
    };
    Ok(Some(table_of(rest, kind)?))
}
