// What these commands keep: the shared overlays, with their memories of words and of bytes. FORGE_OVERLAY, OVERLAYS and LAST_ID.
use answer::Answer;
use compare_keys::{Forged, append, put_keys};
use compare_lines::{Fault, Fields, Line};
use memory::{Holder, LogOverlays};

#[derive(Clone, Copy)]
pub struct Overlays {
    pub overlays: LogOverlays,
    pub words: [u64; 3840],
    pub bytes: [u8; 524288],
}

impl Overlays {
    pub fn new() -> Overlays {
        Overlays {
            overlays: LogOverlays::new(),
            words: [0; 3840],
            bytes: [0; 524288],
        }
    }

    // A key put in untested.
    pub fn forge(&mut self, fields: Fields, line: &mut Line) -> Result<(), Fault> {
        let key = Forged::of(fields, None)?;
        let counts = self.overlays.counts;
        self.overlays.counts = append(
            Holder::Shared,
            counts,
            &mut self.words,
            &mut self.bytes,
            key,
        );
        line.begin(Answer::Done);
        Ok(())
    }

    // What they hold, with checksums for their bytes.
    pub fn tell(&self, fields: Fields, line: &mut Line) -> Result<(), Fault> {
        fields.end()?;
        line.clear();
        put_keys(
            line,
            Holder::Shared,
            self.overlays.counts,
            &self.words,
            &self.bytes,
        );
        Ok(())
    }

    pub fn last_id(&self, mut fields: Fields, line: &mut Line) -> Result<(), Fault> {
        let column = fields.u64()?;
        fields.end()?;
        line.clear();
        line.put(self.overlays.last_record_id(column), 8);
        Ok(())
    }
}
