// One command, by its opcode.
use super::lookups::{lookup, value_into};
use super::overlays::Overlays;
use compare_lines::{Buffer, Fault, Fields, Line};
use compare_lists::List;

impl Overlays {
    pub fn serve(
        &mut self,
        list: &List,
        room: &mut Buffer<60000>,
        opcode: u8,
        fields: Fields,
        line: &mut Line,
    ) -> Result<(), Fault> {
        match opcode {
            0x1a => lookup(list, self, fields, line),
            0x1b => value_into(list, self, room, fields, line),
            0x1d => self.tell(fields, line),
            0x1e => self.last_id(fields, line),
            0x22 => self.forge(fields, line),
            _ => {
                line.unknown();
                Ok(())
            }
        }
    }
}
