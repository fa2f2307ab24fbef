// END: a record ended.
ghost use Rattle.std.specs.Prelude.{◌≤◌, length};

use super::life::Life;
use answer::Answer;
use compare_lent::Tables;
use compare_lines::{Buffer, Fault, Fields, Line};
use ending::Ended;
use files::FileSource;

fn source_of(source: FileSource) -> u64 {
    match source {
        FileSource::Appending => 0,
        FileSource::Pool => 1,
        FileSource::New => 2,
    }
}

// Of an output the w bytes that were written, and the checksum of all.
fn put_ended(line: &mut Line, done: Result<Ended, Answer>, out: &[u8])
    requires { length out.now ≤ 60000 }
{
    let (length, source, number) = match done {
        Ok(ended) => (ended.length, source_of(ended.source), ended.number),
        Err(_) => (0, 0, 0),
    };
    let w = out.len().min(length);
    line.begin_with(done);
    line.put(w as u64, 4);
    line.put(source, 1);
    line.put(number, 4);
    line.put(w as u64, 4);
    line.put_bytes(&out[..w]);
    line.put(u64::from(checksum::checksum(out)), 4);
}

pub fn end(
    life: &mut Life,
    tables: &Tables,
    room: &mut Buffer<60000>,
    mut fields: Fields,
    line: &mut Line,
) -> Result<(), Fault> {
    let n = fields.u32()? as usize;
    fields.end()?;
    if 60000 < n {
        return Err(Fault::LongOutput);
    }
    room.hold(n, 0x5a);
    let done = tables.end_record(
        life.list.list,
        &life.list.words,
        &life.list.bytes,
        life.overlays.overlays,
        &mut life.overlays.words,
        &mut life.overlays.bytes,
        life.queues,
        life.next_record_id,
        room.bytes_mut(),
    );
    if let Ok(ended) = done {
        life.overlays.overlays = ended.overlays;
        life.queues = ended.queues;
    }
    put_ended(line, done, room.bytes());
    Ok(())
}
