// The bytes of an answer, as they are put.
ghost use Rattle.std.specs.Prelude.{◌≡◌, ◌+◌, ◌*◌, ◌≤◌, length};

use answer::Answer;

#[derive(Drop)]
pub struct Line {
    room: [u8; 81920],
    held: usize,
    ghost within: { held ≤ 81920 },
}

impl Line {
    pub fn new() -> Line
        ensures { result.held ≡ 0 }
    {
        Line {
            room: [0; 81920],
            held: 0,
        }
    }

    pub fn bytes(&self) -> &[u8]
        ensures { length result.now ≤ 81920 }
    {
        &self.room[..self.held]
    }

    pub fn clear(&mut self)
        ensures { self.new.held ≡ 0 }
    {
        self.held = 0;
    }

    // Puts so many bytes of a number, the lowest first.
    pub fn put(&mut self, number: u64, width: usize)
        requires { self.old.held + width ≤ 81920 }
        ensures { self.new.held ≡ self.old.held + width }
    {
        output::put_le(&mut self.room, self.held, number, width);
        self.held += width;
    }

    pub fn put_flag(&mut self, set: bool)
        requires { self.old.held + 1 ≤ 81920 }
        ensures { self.new.held ≡ self.old.held + 1 }
    {
        self.put(u64::from(set), 1);
    }

    pub fn put_bytes(&mut self, bytes: &[u8])
        requires { self.old.held + length bytes.now ≤ 81920 }
        ensures { self.new.held ≡ self.old.held + length bytes.now }
    {
        self.room[self.held..][..bytes.len()].copy_from_slice(bytes);
        self.held += bytes.len();
    }

    // Begins an answer with the number of what a call answered.
    pub fn begin(&mut self, answer: Answer)
        ensures { self.new.held ≡ 1 }
    {
        self.held = 0;
        self.put(u64::from(answer.number()), 1);
    }

    // The same of a result.
    pub fn begin_with<T: Copy>(&mut self, outcome: Result<T, Answer>)
        ensures { self.new.held ≡ 1 }
    {
        match outcome {
            Ok(_) => self.begin(Answer::Done),
            Err(answer) => self.begin(answer),
        }
    }

    // What an opcode is answered that isn't known.
    pub fn unknown(&mut self)
        ensures { self.new.held ≡ 1 }
    {
        self.held = 0;
        self.put(255, 1);
    }

    // Puts a list: how many numbers, then each in 4 bytes. No list has more than 80.
    pub fn put_nums(&mut self, numbers: &[u64])
        requires { self.old.held + 322 ≤ 81920 }
        ensures { self.new.held ≤ self.old.held + 322 }
    {
        let n = numbers.len().min(80);
        self.put(n as u64, 2);
        for number in &numbers[..n] {
            self.put(*number, 4);
        }
    }
}
