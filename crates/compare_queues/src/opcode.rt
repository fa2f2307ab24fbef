// One command, by its opcode.
use super::forging::forge_queues;
use super::queues::{clean, flush, kill, read_next, replay_next};
use compare_lines::{Fault, Fields, Line};
use files::Queues;

pub fn serve(
    queues: &mut Queues,
    log: &[u8],
    opcode: u8,
    fields: Fields,
    line: &mut Line,
) -> Result<(), Fault> {
    match opcode {
        0x14 => flush(queues, fields, line),
        0x15 => read_next(queues, log, fields, line),
        0x16 => replay_next(queues, fields, line),
        0x17 => clean(queues, fields, line),
        0x19 => kill(queues, fields, line),
        0x1f => forge_queues(queues, fields, line),
        _ => {
            line.unknown();
            Ok(())
        }
    }
}
