// Standard output. Lines wait until there are many.
ghost use Rattle.std.specs.Prelude.{◌≤◌, length};

use compare_lines::encode;
use std::io;

// The next line has room behind what waits.
#[derive(Clone, Copy)]
pub struct Output {
    room: [u8; 294912],
    filled: usize,
    ghost few: { filled ≤ 131071 },
}

impl Output {
    pub fn new() -> Output {
        Output {
            room: [0; 294912],
            filled: 0,
        }
    }

    // Writes what waits.
    pub fn flush(&mut self, out: &impl Print) -> io::Result<()> {
        let filled = self.filled;
        self.filled = 0;
        out.write_all(&self.room[..filled])
    }

    // An answer's line. No answer has more than 81,920 bytes.
    pub fn put_line(&mut self, out: &impl Print, answer: &[u8]) -> io::Result<()> {
        let answer = &answer[..answer.len().min(81920)];
        let filled = self.filled + encode(answer, &mut self.room[self.filled..]);
        if filled <= 131071 {
            self.filled = filled;
            return Ok(());
        }
        self.filled = 0;
        out.write_all(&self.room[..filled])
    }
}
