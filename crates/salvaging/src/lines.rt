// The lines of a list by value.
ghost use Rattle.std.specs.Prelude.{◌≡◌, ◌≤◌, take, OnOk, OnErr};
ghost use Rattle.salvaging.specs.Inner.{no_lines, with_line, pushed, with_room, leaving_out, keeping, counting, up_to, with_record, place_of, Ruled};
ghost use Rattle.salvaging.specs.Salvage.{words_of};

// A record that is kept, or a stretch that is left out.
#[derive(Clone, Copy)]
pub enum Line {
    Kept { position: u64, length: u64, id: u64 },
    Lost { position: u64, length: u64 },
}

impl Line {
    pub fn position(self) -> u64
        ensures { result ≡ place_of self }
    {
        match self {
            Line::Kept { position, .. } | Line::Lost { position, .. } => position,
        }
    }

    // As the list's memory has it.
    pub fn words(self) -> [u64; 4]
        ensures { result ≡ words_of self }
    {
        match self {
            Line::Kept {
                position,
                length,
                id,
            } => [1, position, length, id],
            Line::Lost { position, length } => [0, position, length, 0],
        }
    }
}

// The first `count` are there, and 65 says that one found no room; where the last one ends, and how many bytes the records kept have.
#[derive(Clone, Copy)]
pub struct Lines {
    pub lines: [Line; 64],
    pub count: usize,
    pub end: u64,
    pub bytes: u64,
}

impl Lines {
    // None, from the front of a log on.
    pub fn new() -> Lines
        ensures { result ≡ no_lines }
    {
        Lines {
            lines: [Line::Lost {
                position: 0,
                length: 0,
            }; 64],
            count: 0,
            end: 0,
            bytes: 0,
        }
    }

    // Those that found room.
    pub fn all(&self) -> &[Line]
        ensures { result.now ≡ take self.now.count self.now.lines }
    {
        &self.lines[..self.count.min(64)]
    }

    // A line that finds no room is told by its position, and changes nothing.
    fn push(&mut self, line: Line) -> Result<(), u64>
        ensures is { pushed result self.new ≡ with_line self.old line }
        ensures full { OnErr result (self.new ≡ self.old) }
    {
        if 64 <= self.count {
            return Err(line.position());
        }
        self.lines[self.count] = line;
        self.count += 1;
        Ok(())
    }

    // What lies before a position and wasn't kept is lost. Where that finds no room, nothing changes.
    pub fn leave_out(&mut self, to: u64) -> Result<(), u64>
        ensures is { pushed result self.new ≡ leaving_out self.old to }
        ensures full { OnErr result (self.new ≡ self.old) }
        ensures rest { OnOk result ((self.new.end ≡ self.old.end) × (self.new.bytes ≡ self.old.bytes) × (self.old.count ≤ 64 → self.new.count ≤ 64)) }
    {
        if to <= self.end {
            return Ok(());
        }
        self.push(Line::Lost {
            position: self.end,
            length: to - self.end,
        })
    }

    // A record is kept, and what lies before it lost. Where the record finds no room, what lies before it may have found the last.
    pub fn keep(&mut self, position: u64, end: u64, id: u64) -> Result<(), u64>
        requires { (Ruled self.old) × (self.old.end ≤ position) × (position ≤ end) }
        ensures is { pushed result self.new ≡ keeping self.old position end id }
        ensures full { OnErr result (self.new ≡ with_room self.old (leaving_out self.old position)) }
        ensures rest { OnOk result ((self.new.end ≡ end) × (self.new.count ≤ 64) × Ruled self.new) }
    {
        let length = end - position;
        let kept = Line::Kept {
            position,
            length,
            id,
        };
        self.leave_out(position)?;
        self.push(kept)?;
        self.end = end;
        self.bytes += length;
        Ok(())
    }

    // By value there is always an answer: a line that finds no room is counted, and no more.
    fn with(self, line: Line) -> Lines
        ensures is { result ≡ counting self line }
        ensures same { (result.end ≡ self.end) × (result.bytes ≡ self.bytes) }
    {
        let mut after = self;
        if self.count < 64 {
            after.lines[self.count] = line;
            after.count += 1;
        } else {
            after.count = 65;
        }
        after
    }

    // What lies before a position and wasn't kept is lost.
    pub fn up_to(self, position: u64) -> Lines
        ensures { (result ≡ up_to self position) × (result.end ≡ self.end) × (result.bytes ≡ self.bytes) }
    {
        if position <= self.end {
            return self;
        }
        self.with(Line::Lost {
            position: self.end,
            length: position - self.end,
        })
    }

    // A record is kept, and what lies before it lost.
    pub fn with_record(self, position: u64, end: u64, id: u64) -> Lines
        requires { (Ruled self) × (self.end ≤ position) × (position ≤ end) }
        ensures { (result ≡ with_record self position end id) × (result.end ≡ end) × Ruled result }
    {
        let length = end - position;
        let kept = Line::Kept {
            position,
            length,
            id,
        };
        let mut after = self.up_to(position).with(kept);
        after.end = end;
        after.bytes += length;
        after
    }
}
