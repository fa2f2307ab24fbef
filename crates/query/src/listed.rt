// Lookups in a change list first, then in the shared overlay: log.rs lines 545 to 611.
ghost use Rattle.std.specs.Prelude.{◌≡◌, true};
ghost use Rattle.keys.specs.Keys.{rank};
ghost use Rattle.overlay.specs.Rules.{overlay_kept};
ghost use Rattle.memory.specs.Parts.{parts_of, of_kind, parts_kept};
ghost use Rattle.memory.specs.declared.span.Holder.TheVariants.{List};
ghost use Rattle.change.specs.Change.{change_of, change_ruled};
ghost use Rattle.query.specs.Query.{shared_part, listed_look};
ghost use Rattle.query.specs.Inner.{found_in};

use super::find::find_in;
use super::lookup::Lookup;
use super::shared::Shared;
use change::LogChange;
use directory::TableKind;
use memory::{Counts, Holder};

// The list whole, of the overlays the kind's part.
#[derive(Clone, Copy)]
pub struct Listed<'a> {
    pub list: LogChange,
    pub words: &'a [u64],
    pub bytes: &'a [u8],
    pub shared: Shared<'a>,
}

// In the list alone.
fn find_listed<'a>(
    kind: TableKind,
    counts: Counts,
    words: &[u64],
    bytes: &'a [u8],
    table: u16,
    index: u64,
) -> &'a [u8]
    requires { parts_kept List (parts_of List counts words.now bytes.now) ≡ true }
    ensures { result.now ≡ found_in kind (of_kind kind (parts_of List counts words.now bytes.now)) (rank table index) }
{
    let s = memory::span_of(Holder::List, kind);
    find_in(
        kind,
        s.room,
        &words[s.words_at..s.words_end],
        &bytes[s.bytes_at..s.bytes_end],
        counts.of(kind),
        table,
        index,
    )
}

impl<'a> Lookup for Listed<'a> {
    type Part = &'a [u8];

    ghost looked = { λ s kind key. listed_look kind (change_of s.list s.words.now s.bytes.now) (shared_part kind s.shared.overlays s.shared.words.now s.shared.bytes.now) key };

    ghost ruled = { λ s kind. (change_ruled (change_of s.list s.words.now s.bytes.now) ≡ true) × (overlay_kept kind 256 (shared_part kind s.shared.overlays s.shared.words.now s.shared.bytes.now) ≡ true) };

    fn kept(&self, kind: TableKind) -> bool {
        self.list.ruled(self.words, self.bytes) && self.shared.kept(kind)
    }

    // The list's entry if there is one, else the shared one. No entry has no bytes.
    fn look_kept(&self, kind: TableKind, table: u16, index: u64) -> &'a [u8] {
        let mine = find_listed(kind, self.list.counts, self.words, self.bytes, table, index);
        if !mine.is_empty() {
            return mine;
        }
        self.shared.look_kept(kind, table, index)
    }
}
