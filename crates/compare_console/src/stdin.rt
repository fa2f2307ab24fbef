// Standard input, chunk by chunk, and the commands in it.
ghost use Rattle.std.specs.Prelude.{◌≤◌, ◌*◌, length, IfOk, IfSome};

use compare_lines::{Fault, value_of};
use std::io;
use std::io::Read;

// Nothing says that the input ends, so a loop over it counts its turns, up to a number that no run reaches.
pub const TURNS: u64 = 4611686018427387904;

// What was read of standard input, and from where on it is still to be looked at.
#[derive(Clone, Copy)]
struct Chunk {
    room: [u8; 65536],
    at: usize,
    held: usize,
    ghost within: { at ≤ held },
    ghost fits: { held ≤ 65536 },
}

impl Chunk {
    fn new() -> Chunk {
        Chunk {
            room: [0; 65536],
            at: 0,
            held: 0,
        }
    }

    // The next character, if there is one.
    fn next<R: Read>(&mut self, reader: &mut R) -> io::Result<Option<u8>> {
        if self.at == self.held {
            let held = reader.read(&mut self.room)?;
            self.at = 0;
            self.held = held;
            if held == 0 {
                return Ok(None);
            }
        }
        let character = self.room[self.at];
        self.at += 1;
        Ok(Some(character))
    }
}

// The command that a line holds, as far as its digits were read.
#[derive(Clone, Copy)]
struct Command {
    room: [u8; 80005],
    digits: usize,
    ghost fits: { digits ≤ 160010 },
}

impl Command {
    fn new() -> Command {
        Command {
            room: [0; 80005],
            digits: 0,
        }
    }

    fn push(&mut self, character: u8) -> Result<(), Fault> {
        let value = value_of(character).ok_or(Fault::NoDigit)?;
        if self.digits == 160010 {
            return Err(Fault::LongLine);
        }
        let i = self.digits / 2;
        self.room[i] = if self.digits % 2 == 0 {
            value
        } else {
            (self.room[i] << 4) | value
        };
        self.digits += 1;
        Ok(())
    }

    // At the line's end.
    fn whole(&self) -> Result<&[u8], Fault>
        ensures { IfOk result (λ command. (1 ≤ length command.now) × (length command.now ≤ 80005)) }
    {
        if self.digits == 0 {
            return Err(Fault::ShortCommand);
        }
        if self.digits % 2 == 1 {
            return Err(Fault::OddDigits);
        }
        Ok(&self.room[..self.digits / 2])
    }
}

// The number of the line that was read last, and the command in it.
#[derive(Clone, Copy)]
pub struct Input {
    pub line: u64,
    chunk: Chunk,
    command: Command,
}

impl Input {
    pub fn new() -> Input {
        Input {
            line: 0,
            chunk: Chunk::new(),
            command: Command::new(),
        }
    }

    // Reads up to the end of a line; the last one may lack it. A command has an opcode. No run has 2^64 lines.
    pub fn next_command<R: Read>(&mut self, reader: &mut R) -> Result<Option<&[u8]>, Fault>
        ensures { IfOk result (λ found. IfSome found (λ command. (1 ≤ length command.now) × (length command.now ≤ 80005))) }
    {
        self.line = self.line.wrapping_add(1);
        self.command.digits = 0;
        for _ in 0..TURNS {
            match self.chunk.next(reader) {
                Err(_) => return Err(Fault::NoInput),
                Ok(None) if self.command.digits == 0 => return Ok(None),
                Ok(None) | Ok(Some(b'\n')) => return Ok(Some(self.command.whole()?)),
                Ok(Some(character)) => self.command.push(character)?,
            }
        }
        Ok(None)
    }
}
