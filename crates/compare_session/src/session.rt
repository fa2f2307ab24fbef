// What is kept from command to command, and each command by its opcode. The last of the crates answers for those that none knows.
use checker::LogChecker;
use compare_lines::{Buffer, Fault, Fields, Line};
use compare_log::Life;
use compare_reading::Reading;
use directory::Directory;

#[derive(Clone, Copy)]
pub struct Session {
    reading: Reading,
    life: Life,
    checker: LogChecker,
    room: Buffer<60000>,
}

impl Session {
    pub fn new() -> Session {
        Session {
            reading: Reading::new(),
            life: Life::new(),
            checker: LogChecker::new(Directory::new(), 1).checker,
            room: Buffer::new(),
        }
    }

    pub fn serve(&mut self, command: &[u8], line: &mut Line) -> Result<(), Fault> {
        let mut fields = Fields::of(command);
        let opcode = fields.u8()?;
        let reading = &mut self.reading;
        let life = &mut self.life;
        let room = &mut self.room;
        match opcode {
            0x01..=0x04 | 0x0b..=0x0f | 0x30 | 0xf1 => reading.serve(opcode, fields, line),
            0x05..=0x0a | 0x21 | 0x23 | 0x24 | 0xf0 | 0xf2 => {
                let tables = &reading.tables;
                life.list.serve(tables, room, opcode, fields, line)
            }
            0x14..=0x17 | 0x19 | 0x1f => {
                let log = reading.log.bytes();
                compare_queues::serve(&mut life.queues, log, opcode, fields, line)
            }
            0x36..=0x38 => {
                compare_checker::serve(&mut self.checker, reading, opcode, fields, line)
            }
            0x39 => compare_salvage::serve(reading, fields, line),
            0x1a | 0x1b | 0x1d | 0x1e | 0x22 => {
                let list = &life.list;
                life.overlays.serve(list, room, opcode, fields, line)
            }
            _ => life.serve(reading, room, opcode, fields, line),
        }
    }
}
