// OPEN: the files found.
ghost use Rattle.std.specs.Prelude.{◌≡◌, ◌+◌, ◌*◌, ◌≤◌, ◌<◌, length};

use answer::Answer;
use compare_lines::{Fault, Fields, Line};
use files::{Opened, Queues};

// At most 80 files: their names one behind the other, and of each the lengths of name and file and the first 9 bytes, zeros behind a shorter
// file's.
#[derive(Drop)]
struct Found {
    count: usize,
    named: usize,
    names: [u8; 20400],
    name_lengths: [usize; 80],
    lengths: [u64; 80],
    heads: [u8; 720],
    ghost few: { count ≤ 80 },
    ghost short: { named ≤ 255 * count },
}

impl Found {
    fn new() -> Found
        ensures { result.count ≡ 0 }
    {
        Found {
            count: 0,
            named: 0,
            names: [0; 20400],
            name_lengths: [0; 80],
            lengths: [0; 80],
            heads: [0; 720],
        }
    }

    fn push(&mut self, name: &[u8], bytes: &[u8])
        requires { (self.old.count < 80) × (length name.now ≤ 255) }
        ensures { self.new.count ≡ self.old.count + 1 }
    {
        let k = self.count;
        let named = self.named + name.len();
        self.names[self.named..named].copy_from_slice(name);
        self.name_lengths[k] = name.len();
        self.lengths[k] = bytes.len() as u64;
        let head = bytes.len().min(9);
        self.heads[9 * k..9 * k + head].copy_from_slice(&bytes[..head]);
        self.named = named;
        self.count = k + 1;
    }

    fn open(&self, remove: &mut [u64; 80]) -> Result<Opened, Answer> {
        let n = self.count;
        Queues::open(
            &self.names[..self.named],
            &self.name_lengths[..n],
            &self.lengths[..n],
            &self.heads[..9 * n],
            &mut remove[..n],
        )
    }
}

// The files that a command has. At most 80 names of at most 255 bytes.
fn take_files(mut fields: Fields) -> Result<Found, Fault> {
    let n = fields.u16()?;
    if 80 < n {
        return Err(Fault::ManyNames);
    }
    let mut found = Found::new();
    for _i in 0..n {
        let named = usize::from(fields.u8()?);
        let name = fields.bytes(named)?;
        let length = fields.u32()? as usize;
        found.push(name, fields.bytes(length)?);
    }
    fields.end()?;
    Ok(found)
}

// Answers whether they were opened. A refusal leaves the state.
pub fn open(queues: &mut Queues, fields: Fields, line: &mut Line) -> Result<bool, Fault> {
    let mut remove = [0u64; 80];
    match take_files(fields)?.open(&mut remove) {
        Ok(opened) => {
            *queues = opened.queues;
            line.begin(Answer::Done);
            line.put_nums(&remove[..opened.remove_count.min(80)]);
            Ok(true)
        }
        Err(answer) => {
            line.begin(answer);
            Ok(false)
        }
    }
}
