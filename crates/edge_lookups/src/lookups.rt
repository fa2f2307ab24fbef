// Lookups that say where the stored bytes lie.
ghost use Rattle.std.specs.Prelude.{◌≡◌, true, length, Option, Ok};
ghost use Rattle.std.specs.Option.{option_or};
ghost use Rattle.keys.specs.Keys.{rank};
ghost use Rattle.overlay.specs.Rules.{overlay_kept};
ghost use Rattle.memory.specs.Parts.{span_of, words_all, bytes_all, part_of};
ghost use Rattle.memory.specs.declared.span.Holder.TheVariants.{Shared, List};
ghost use Rattle.change.specs.Change.{change_of, change_ruled};
ghost use Rattle.host_words.specs.Tables.{kind_from};
ghost use Rattle.host_words.specs.Change.{list_from};
ghost use Rattle.host_words.specs.Overlays.{overlays_from};
ghost use Rattle.edge_lookups.specs.Lookups.{spot_numbers, spotted_in, spotted_first, shared_kept_of, shared_spot, listed_spot, SpotLeft};

use super::place::place_of;
use answer::Answer;
use change::LogChange;
use directory::TableKind;
use host_words::{kind_of, list_of, overlays_of};
use memory::{Counts, Holder};

// Where stored bytes lie: in which memory, at which place in it, and how many there are.
#[derive(Clone, Copy)]
pub struct Spot {
    pub memory: Holder,
    pub place: usize,
    pub length: usize,
}

impl Spot {
    // The memory's number, 1 the list's and 2 the shared one, then the place and the length.
    fn numbers(self) -> (u64, u64, u64)
        ensures { result ≡ spot_numbers self }
    {
        let memory = match self.memory {
            Holder::Shared => 2,
            Holder::List => 1,
        };
        (memory, self.place as u64, self.length as u64)
    }
}

fn spot_in(
    holder: Holder,
    kind: TableKind,
    counts: Counts,
    words: &[u64],
    bytes: &[u8],
    table: u16,
    index: u64,
) -> Option<Spot>
    requires { (length words.now ≡ words_all holder) × (length bytes.now ≡ bytes_all holder) × (overlay_kept kind (span_of holder kind).room (part_of holder kind counts words.now bytes.now) ≡ true) }
    ensures { result ≡ spotted_in holder kind counts words.now bytes.now (rank table index) }
{
    let (at, length) = place_of(holder, kind, counts, words, bytes, table, index)?;
    Some(Spot {
        memory: holder,
        place: memory::span_of(holder, kind).bytes_at + at,
        length,
    })
}

#[tactic(auto, unfolding(crate::specs::Lookups::shared_kept_of))]
pub(crate) fn shared_kept(kind: TableKind, counts: Counts, words: &[u64], bytes: &[u8]) -> bool
    ensures { result ≡ shared_kept_of kind counts words.now bytes.now }
{
    words.len() == 3840
        && bytes.len() == 524288
        && memory::kept_in(Holder::Shared, kind, counts, words, bytes)
}

// Behind 13.
fn shared_spot_kept(
    kind: TableKind,
    counts: Counts,
    words: &[u64],
    bytes: &[u8],
    table: u16,
    index: u64,
) -> Option<Spot>
    requires { shared_kept_of kind counts words.now bytes.now ≡ true }
    ensures { result ≡ spotted_in Shared kind counts words.now bytes.now (rank table index) }
{
    spot_in(Holder::Shared, kind, counts, words, bytes, table, index)
}

fn listed_spot_kept(
    kind: TableKind,
    list: LogChange,
    items: &[u64],
    chunks: &[u8],
    counts: Counts,
    words: &[u64],
    bytes: &[u8],
    table: u16,
    index: u64,
) -> Option<Spot>
    requires { (change_ruled (change_of list items.now chunks.now) ≡ true) × (shared_kept_of kind counts words.now bytes.now ≡ true) }
    ensures { result ≡ spotted_first kind list items.now chunks.now counts words.now bytes.now (rank table index) }
{
    let mine = spot_in(Holder::List, kind, list.counts, items, chunks, table, index);
    mine.or(shared_spot_kept(kind, counts, words, bytes, table, index))
}

#[tactic(auto, unfolding(crate::specs::Lookups::shared_spot))]
fn shared_spot(
    kind: TableKind,
    counts: Counts,
    words: &[u64],
    bytes: &[u8],
    table: u16,
    index: u64,
) -> Result<Option<Spot>, Answer>
    ensures { result ≡ shared_spot kind counts words.now bytes.now (rank table index) }
{
    if !shared_kept(kind, counts, words, bytes) {
        return Err(Answer::BadState);
    }
    Ok(shared_spot_kept(kind, counts, words, bytes, table, index))
}

fn listed_spot(
    kind: TableKind,
    list: LogChange,
    items: &[u64],
    chunks: &[u8],
    counts: Counts,
    words: &[u64],
    bytes: &[u8],
    table: u16,
    index: u64,
) -> Result<Option<Spot>, Answer>
    ensures { result ≡ listed_spot kind list items.now chunks.now counts words.now bytes.now (rank table index) }
{
    if !list.ruled(items, chunks) {
        return Err(Answer::BadState);
    }
    if !shared_kept(kind, counts, words, bytes) {
        return Err(Answer::BadState);
    }
    Ok(listed_spot_kept(
        kind, list, items, chunks, counts, words, bytes, table, index,
    ))
}

// What a lookup found, 0 where it found nothing or refused.
fn keep_spot(
    found: Result<Option<Spot>, Answer>,
    memory: &mut u64,
    place: &mut u64,
    length: &mut u64,
) -> u64
    ensures { SpotLeft found result memory.new place.new length.new }
{
    let (m, p, n) = match found {
        Ok(Some(spot)) => spot.numbers(),
        _ => (0, 0, 0),
    };
    *memory = m;
    *place = p;
    *length = n;
    match found {
        Ok(_) => 0,
        Err(answer) => u64::from(answer.number()),
    }
}

#[unsafe(no_mangle)]
pub extern "C" fn hongsathep_lookup(
    kind: u64,
    overlays: &[u64],
    words: &[u64],
    bytes: &[u8],
    table: u16,
    index: u64,
    memory: &mut u64,
    place: &mut u64,
    length: &mut u64,
) -> u64
    ensures { SpotLeft (shared_spot (kind_from kind) (overlays_from overlays.now).counts words.now bytes.now (rank table index)) result memory.new place.new length.new }
{
    let counts = overlays_of(overlays).counts;
    let k = kind_of(kind);
    let spot = shared_spot(k, counts, words, bytes, table, index);
    keep_spot(spot, memory, place, length)
}

#[unsafe(no_mangle)]
pub extern "C" fn hongsathep_lookup_listed(
    kind: u64,
    list: &[u64],
    items: &[u64],
    chunks: &[u8],
    overlays: &[u64],
    words: &[u64],
    bytes: &[u8],
    table: u16,
    index: u64,
    memory: &mut u64,
    place: &mut u64,
    length: &mut u64,
) -> u64
    ensures { SpotLeft (listed_spot (kind_from kind) (list_from list.now) items.now chunks.now (overlays_from overlays.now).counts words.now bytes.now (rank table index)) result memory.new place.new length.new }
{
    let counts = overlays_of(overlays).counts;
    let k = kind_of(kind);
    let l = list_of(list);
    let spot = listed_spot(k, l, items, chunks, counts, words, bytes, table, index);
    keep_spot(spot, memory, place, length)
}

#[unsafe(no_mangle)]
pub extern "C" fn hongsathep_lookup_kept(
    kind: u64,
    overlays: &[u64],
    words: &[u64],
    bytes: &[u8],
    table: u16,
    index: u64,
    memory: &mut u64,
    place: &mut u64,
    length: &mut u64,
) -> u64
    requires { shared_kept_of (kind_from kind) (overlays_from overlays.now).counts words.now bytes.now ≡ true }
    ensures { SpotLeft (Ok (spotted_in Shared (kind_from kind) (overlays_from overlays.now).counts words.now bytes.now (rank table index))) result memory.new place.new length.new }
{
    let counts = overlays_of(overlays).counts;
    let k = kind_of(kind);
    let spot = shared_spot_kept(k, counts, words, bytes, table, index);
    keep_spot(Ok(spot), memory, place, length)
}

#[unsafe(no_mangle)]
pub extern "C" fn hongsathep_lookup_listed_kept(
    kind: u64,
    list: &[u64],
    items: &[u64],
    chunks: &[u8],
    overlays: &[u64],
    words: &[u64],
    bytes: &[u8],
    table: u16,
    index: u64,
    memory: &mut u64,
    place: &mut u64,
    length: &mut u64,
) -> u64
    requires { (change_ruled (change_of (list_from list.now) items.now chunks.now) ≡ true) × (shared_kept_of (kind_from kind) (overlays_from overlays.now).counts words.now bytes.now ≡ true) }
    ensures { SpotLeft (Ok (spotted_first (kind_from kind) (list_from list.now) items.now chunks.now (overlays_from overlays.now).counts words.now bytes.now (rank table index))) result memory.new place.new length.new }
{
    let counts = overlays_of(overlays).counts;
    let k = kind_of(kind);
    let l = list_of(list);
    let spot = listed_spot_kept(k, l, items, chunks, counts, words, bytes, table, index);
    keep_spot(Ok(spot), memory, place, length)
}
