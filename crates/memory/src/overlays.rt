// What of the shared overlays goes by value: how many keys of each kind are in use, and the columns' last ids. log.rs lines 92 to 98.
ghost use Rattle.std.specs.Prelude.{◌≡◌};
ghost use Rattle.memory.specs.Overlays.{no_overlays, last_id_of};

use super::counts::Counts;

#[derive(Clone, Copy)]
pub struct LogOverlays {
    pub counts: Counts,
    pub last_record_ids: [u64; 8],
}

impl LogOverlays {
    // Empty overlays; their memory may hold anything.
    pub fn new() -> LogOverlays
        ensures { result ≡ no_overlays }
    {
        LogOverlays {
            counts: Counts::new(),
            last_record_ids: [0u64; 8],
        }
    }

    #[tactic(auto, unfolding(crate::specs::Overlays::last_id_of))]
    pub fn last_record_id(self, col: u64) -> u64
        ensures { result ≡ last_id_of self col }
    {
        if col < 8 {
            self.last_record_ids[col as usize]
        } else {
            u64::MAX
        }
    }
}
