// What an insert is to do.
ghost use Rattle.std.specs.Prelude.{◌≡◌, true, [], ◌*◌, ◌≤◌, length};
ghost use Rattle.keys.specs.Keys.{rank, ruled};
ghost use Rattle.overlay.specs.Rules.{rows_of, order_of, overlay_of};
ghost use Rattle.memory.specs.Parts.{span_of};
ghost use Rattle.memory.specs.declared.span.Holder.TheVariants.{List};
ghost use Rattle.change.specs.Insert.{bytes_fit_of, room_for, plan_in};

use answer::Answer;
use directory::{TableDescription, TableKind};
use overlay::Seat;

fn bytes_fit(kind: TableKind, t: TableDescription, data: &[u8]) -> bool
    ensures { result ≡ bytes_fit_of kind t «data».now }
{
    data.len() == kind.unit(t.length)
}

// The mark that the key has now, 0 if there is none. A key that is listed is replaced, so a full list takes it.
fn room_for(room: usize, words: &[u64], n: usize, number: u16, index: u64) -> Result<u64, Answer>
    requires { (length words.now ≡ 5 * room) × (n ≤ room) × (ruled (rows_of room words.now) (order_of room words.now) n ≡ true) }
    ensures { result ≡ room_for room (overlay_of room words.now [] n) (rank number index) }
{
    match overlay::seat_of(room, words, n, u64::from(number), index) {
        Seat::Over(p) => Ok(words[4 * p + 3]),
        Seat::Next(_) => {
            if room <= n {
                return Err(Answer::NoRoom);
            }
            Ok(0)
        }
    }
}

// The mark that an insert adds to, at a list that keeps its rules, by what the directory has under the number: else 6, 7, 14, 9. The words are the
// kind's part.
#[tactic(auto, unfolding(crate::specs::Insert::plan_in))]
pub(crate) fn plan_for(
    kind: TableKind,
    room: usize,
    words: &[u64],
    n: usize,
    found: Option<(usize, TableDescription)>,
    number: u16,
    index: u64,
    sub: u8,
    data: &[u8],
) -> Result<u64, Answer>
    requires { (room ≡ (span_of List kind).room) × (length words.now ≡ 5 * room) × (n ≤ room)
        × (ruled (rows_of room words.now) (order_of room words.now) n ≡ true) }
    ensures { result ≡ plan_in kind (overlay_of room words.now [] n) found number index sub «data».now }
{
    let Some((_, t)) = found else {
        return Err(Answer::NoTable);
    };
    if u64::from(t.count) <= index {
        return Err(Answer::NoIndex);
    }
    if 63 < sub {
        return Err(Answer::BadArgument);
    }
    if !bytes_fit(kind, t, data) {
        return Err(Answer::BadArgument);
    }
    room_for(room, words, n, number, index)
}
