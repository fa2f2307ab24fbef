// The overlays' head from words and back.
ghost use Rattle.std.specs.Prelude.{◌≡◌};
ghost use Rattle.host_words.specs.Overlays.{broken_overlays, overlays_from, overlays_words};

use super::list::{counts_of, counts_words};
use memory::{Counts, LogOverlays};

fn broken() -> LogOverlays
    ensures { result ≡ broken_overlays }
{
    LogOverlays {
        counts: Counts {
            index: 257,
            value: 257,
            ref_count: 257,
        },
        last_record_ids: [0; 8],
    }
}

#[tactic(auto, unfolding(crate::specs::Overlays::overlays_from))]
pub fn overlays_of(words: &[u64]) -> LogOverlays
    ensures { result ≡ overlays_from words.now }
{
    if words.len() != 11 {
        return broken();
    }
    let mut last_record_ids = [0; 8];
    last_record_ids.copy_from_slice(&words[3..]);
    LogOverlays {
        counts: counts_of(&words[..3]),
        last_record_ids,
    }
}

pub fn overlays_words(overlays: LogOverlays) -> [u64; 11]
    ensures { result ≡ overlays_words overlays }
{
    let mut words = [0; 11];
    words[..3].copy_from_slice(&counts_words(overlays.counts));
    words[3..].copy_from_slice(&overlays.last_record_ids);
    words
}
