// Lookups in a shared overlay alone: log.rs lines 159 to 202.
ghost use Rattle.std.specs.Prelude.{◌≡◌, true};
ghost use Rattle.overlay.specs.Rules.{overlay_kept};
ghost use Rattle.query.specs.Query.{shared_part, shared_look};
ghost use Rattle.query.specs.Places.{told_places, several_look};

use super::find::find_in;
use super::lookup::Lookup;
use super::several::{in_pairs, tell_places};
use answer::Answer;
use directory::TableKind;
use memory::LogOverlays;

// Of a kind: its part of the words, its part of the bytes, and how many keys are in use.
#[derive(Clone, Copy)]
pub struct Shared<'a> {
    pub overlays: LogOverlays,
    pub words: &'a [u64],
    pub bytes: &'a [u8],
}

impl<'a> Lookup for Shared<'a> {
    type Part = &'a [u8];

    ghost looked = { λ s kind key. shared_look kind (shared_part kind s.overlays s.words.now s.bytes.now) key };

    ghost ruled = { λ s kind. overlay_kept kind 256 (shared_part kind s.overlays s.words.now s.bytes.now) ≡ true };

    fn kept(&self, kind: TableKind) -> bool {
        let n = self.overlays.counts.of(kind);
        overlay::kept(kind, 256, self.words, self.bytes, n)
    }

    fn look_kept(&self, kind: TableKind, table: u16, index: u64) -> &'a [u8] {
        let n = self.overlays.counts.of(kind);
        find_in(kind, 256, self.words, self.bytes, n, table, index)
    }
}

impl<'a> Shared<'a> {
    // Many keys at once, the rules tested once for all of them; log.rs has no such call, its maps having no rules. Keys are lent as pairs of table
    // and index; for each, two words are written: where its bytes lie in the kind's bytes, and how many there are.
    pub fn places_of(&self, kind: TableKind, keys: &[u64], places: &mut [u64]) -> Result<(), Answer>
        ensures { told_places result places.new
            ≡ several_look kind (shared_part kind self.now.overlays self.now.words.now self.now.bytes.now) keys.now places.old }
    {
        if !self.kept(kind) {
            return Err(Answer::BadState);
        }
        self.places_of_kept(kind, keys, places)
    }

    pub fn places_of_kept(
        &self,
        kind: TableKind,
        keys: &[u64],
        places: &mut [u64],
    ) -> Result<(), Answer>
        requires { overlay_kept kind 256 (shared_part kind self.now.overlays self.now.words.now self.now.bytes.now) ≡ true }
        ensures { told_places result places.new
            ≡ several_look kind (shared_part kind self.now.overlays self.now.words.now self.now.bytes.now) keys.now places.old }
    {
        if !in_pairs(keys.len(), places.len()) {
            return Err(Answer::BadArgument);
        }
        let n = self.overlays.counts.of(kind);
        tell_places(kind, self.words, self.bytes, n, keys, places);
        Ok(())
    }
}
