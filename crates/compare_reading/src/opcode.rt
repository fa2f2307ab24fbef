// One command, by its opcode.
use super::bytes::{keep_log, sum};
use super::images::{image_sum, keep_image, replay, run, tell_place};
use super::state::Reading;
use super::steps::{step, step_at};
use super::tables::{keep_directory, keep_form};
use compare_lines::{Fault, Fields, Line};

impl Reading {
    pub fn serve(&mut self, opcode: u8, fields: Fields, line: &mut Line) -> Result<(), Fault> {
        match opcode {
            0x01 => keep_directory(self, fields, line),
            0x02 => keep_image(self, fields, line),
            0x03 => keep_log(self, fields, line),
            0x04 => sum(fields, line),
            0x0b => step_at(self, fields, line),
            0x0c => step(self, fields, line),
            0x0d => replay(self, fields, line),
            0x0e => run(self, fields, line),
            0x0f => image_sum(self.image.bytes(), fields, line),
            0x30 => tell_place(self.place, fields, line),
            0xf1 => keep_form(self, fields, line),
            _ => {
                line.unknown();
                Ok(())
            }
        }
    }
}
