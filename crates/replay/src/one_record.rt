// One record, in two passes over its bytes: checked, then applied.
ghost use Rattle.std.specs.Prelude.{◌≡◌, true, length};
ghost use Rattle.directory.specs.Directory.{image_length};
ghost use Rattle.replay.specs.Inner.{Opened};
ghost use Rattle.replay.specs.Replay.{rest_in, record_at, tables_kept, judged, image_after, end_in};

use super::apply::apply_rest;
use super::check::checked_rest;
use answer::{Answer, Refusal};
use directory::{Directory, Layout};
use record::LogReader;

// The record behind its opening: checked to its end, then applied. The second pass leaves the checksum out: it was found right.
fn replay_opened(
    layout: &Layout,
    log: &[u8],
    at: usize,
    opened: LogReader,
    image: &mut [u8],
) -> Result<usize, Refusal>
    requires opened { Opened log.now at opened }
    requires image { length image.old ≡ image_length layout.now.directory }
    ensures told { result ≡ end_in (rest_in layout.now.directory log.now opened) }
    ensures image { image.new ≡ image_after layout.now.directory image.old (rest_in layout.now.directory log.now opened) }
{
    let end = checked_rest(&layout.directory, log, at, opened)?;
    apply_rest(layout, log, opened.unvalidated(), image);
    Ok(end)
}

// A record under a directory that is lent: a run lays it out once.
pub fn replay_in(
    layout: &Layout,
    log: &[u8],
    at: usize,
    expected: u64,
    image: &mut [u8],
) -> Result<usize, Refusal>
    requires { length image.old ≡ image_length layout.now.directory }
    ensures told { result ≡ end_in (record_at layout.now.directory log.now at expected) }
    ensures image { image.new ≡ image_after layout.now.directory image.old (record_at layout.now.directory log.now at expected) }
{
    let opened = LogReader::new(at, true).open(log)?.reader;
    if opened.record_id == expected {
        replay_opened(layout, log, at, opened, image)
    } else {
        Err(Refusal::new(Answer::WrongId, at))
    }
}

// A record under a directory and an image that were tested already.
pub fn replay_kept(
    d: Directory,
    log: &[u8],
    at: usize,
    expected: u64,
    image: &mut [u8],
) -> Result<usize, Refusal>
    requires { tables_kept d image.old ≡ true }
    ensures told { result ≡ end_in (record_at d log.now at expected) }
    ensures image { image.new ≡ image_after d image.old (record_at d log.now at expected) }
{
    replay_in(&Layout::of(d), log, at, expected, image)
}

// Whether the directory keeps its rules and the image is its.
#[tactic(auto, unfolding(crate::specs::Replay::tables_kept))]
pub fn tables_kept(d: Directory, image: &[u8]) -> bool
    ensures { result ≡ tables_kept d image.now }
{
    d.kept() && image.len() == d.image_length()
}

// Replays the record at a position, if it is whole and acceptable and has the expected id: the place behind it. A refusal moves nothing.
#[tactic(auto, unfolding(crate::specs::Replay::judged))]
pub fn replay(
    d: Directory,
    log: &[u8],
    at: usize,
    expected: u64,
    image: &mut [u8],
) -> Result<usize, Refusal>
    ensures told { result ≡ end_in (judged d log.now at expected image.old) }
    ensures image { image.new ≡ image_after d image.old (judged d log.now at expected image.old) }
{
    if tables_kept(d, image) {
        replay_kept(d, log, at, expected, image)
    } else {
        Err(Refusal::new(Answer::BadState, at))
    }
}
