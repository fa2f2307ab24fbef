// What these commands keep.
use compare_lists::List;
use compare_overlays::Overlays;
use files::Queues;

#[derive(Clone, Copy)]
pub struct Life {
    pub list: List,
    pub queues: Queues,
    pub overlays: Overlays,
    pub next_record_id: u64,
}

impl Life {
    // As an open of no files leaves it.
    pub fn new() -> Life {
        Life {
            list: List::new(),
            queues: Queues::new(),
            overlays: Overlays::new(),
            next_record_id: log_calls::first_record_id(),
        }
    }
}
