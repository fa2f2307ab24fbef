// SALVAGE: a damaged log salvaged into an output.
#![tactic(auto)]

ghost use Rattle.std.specs.Prelude.{◌+◌, ◌*◌, ◌≤◌, length};

use answer::Answer;
use compare_lines::{Buffer, Fault, Fields, Line};
use compare_reading::Reading;
use salvaging::Salvaged;

// A line of the list takes 25 bytes.
fn put_row(line: &mut Line, row: &[u64])
    requires { (line.old.held + 25 ≤ 81920) × (4 ≤ length row.now) }
    ensures { line.new.held ≤ line.old.held + 25 }
{
    line.put(row[0], 1);
    line.put(row[1], 8);
    line.put(row[2], 8);
    line.put(row[3], 8);
}

// How many lines there are, and each.
fn put_rows(line: &mut Line, list: &[u64; 256], lines: usize)
    requires { line.old.held ≤ 1 }
    ensures { line.new.held ≤ 1603 }
{
    let n = lines.min(64);
    line.put(n as u64, 2);
    for i in 0..n {
        put_row(line, &list[4 * i..]);
    }
}

// The answer's number and the list; of the output the bytes that were written, and the checksum of all.
fn put_salvaged(line: &mut Line, outcome: Result<Salvaged, Answer>, list: &[u64; 256], out: &[u8])
    requires { length out.now ≤ 80000 }
{
    let (lines, written) = match outcome {
        Ok(salvaged) => (salvaged.lines, salvaged.written),
        Err(_) => (0, 0),
    };
    let w = out.len().min(written);
    line.begin_with(outcome);
    put_rows(line, list, lines);
    line.put(w as u64, 4);
    line.put(w as u64, 4);
    line.put_bytes(&out[..w]);
    line.put(u64::from(checksum::checksum(out)), 4);
}

// Up to 81,615 bytes, since a log of 80,000 bytes may be kept whole.
pub fn serve(reading: &Reading, mut fields: Fields, line: &mut Line) -> Result<(), Fault> {
    let n = fields.u32()? as usize;
    fields.end()?;
    if 80000 < n {
        return Err(Fault::LongOutput);
    }
    let mut room: Buffer<80000> = Buffer::new();
    room.hold(n, 0x5a);
    let mut list = [0u64; 256];
    let outcome = reading
        .tables
        .salvage(reading.log.bytes(), room.bytes_mut(), &mut list);
    put_salvaged(line, outcome, &list, room.bytes());
    Ok(())
}
