// Many keys looked up at once in a kind's part of the shared overlays.
ghost use Rattle.std.specs.Prelude.{◌≡◌, true, length};
ghost use Rattle.overlay.specs.Rules.{overlay_of, overlay_kept};
ghost use Rattle.query.specs.Places.{paired, places_of};

use super::find::place_in;
use directory::TableKind;

// Whether words come in pairs, and as many are lent for the answers.
pub(crate) fn in_pairs(keys: usize, places: usize) -> bool
    ensures { result ≡ paired keys places }
{
    keys / 2 * 2 == keys && places == keys
}

pub(crate) fn tell_places(
    kind: TableKind,
    words: &[u64],
    bytes: &[u8],
    n: usize,
    keys: &[u64],
    places: &mut [u64],
)
    requires { (overlay_kept kind 256 (overlay_of 256 words.now bytes.now n) ≡ true) × (paired (length keys.now) (length places.old) ≡ true) }
    ensures { places.new ≡ places_of kind (overlay_of 256 words.now bytes.now n) keys.now }
{
    for pair in 0..keys.len() / 2 {
        let i = 2 * pair;
        let (at, length) = place_in(kind, 256, words, bytes, n, keys[i], keys[i + 1]).unwrap_or((
            0, 0,
        ));
        places[i] = at as u64;
        places[i + 1] = length as u64;
    }
}
