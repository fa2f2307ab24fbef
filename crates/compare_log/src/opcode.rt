// One command, by its opcode.
use super::ends::end;
use super::life::Life;
use super::records::{begin, clear};
use super::state::{clear_replay, forge_next_id, open, state};
use compare_lines::{Buffer, Fault, Fields, Line};
use compare_reading::Reading;

impl Life {
    // A call that reads is told to whoever keeps the log.
    pub fn serve(
        &mut self,
        reading: &mut Reading,
        room: &mut Buffer<60000>,
        opcode: u8,
        fields: Fields,
        line: &mut Line,
    ) -> Result<(), Fault> {
        match opcode {
            0x10 => open(self, fields, line),
            0x11 => begin(self, fields, line),
            0x12 => end(self, &reading.tables, room, fields, line),
            0x13 => clear(self, reading, fields, line),
            0x18 => clear_replay(self, fields, line),
            0x1c => state(self, fields, line),
            0x20 => forge_next_id(self, fields, line),
            _ => {
                line.unknown();
                Ok(())
            }
        }
    }
}
