// Where a check stands.
ghost use Rattle.std.specs.Prelude.{◌≡◌, ◌≤◌};
ghost use Rattle.checker.specs.Check.{first_standing, reading_at, report_of, stands_before};
ghost use Rattle.checker.specs.Inner.{back_reader};

use answer::Answer;
use record::LogReader;
use replay::Ran;

// The id that is due, where the record begins that isn't whole yet, how many were before it, and the reader: behind the last whole action.
#[derive(Clone, Copy)]
pub struct Standing {
    pub expected: u64,
    pub start: usize,
    pub count: u64,
    pub reader: LogReader,
}

impl Standing {
    pub fn new(first: u64) -> Standing
        ensures { result ≡ first_standing first }
    {
        Standing {
            expected: first,
            start: 0,
            count: 0,
            reader: LogReader::new(0, true),
        }
    }

    pub fn reading(self, reader: LogReader) -> Standing
        ensures { result ≡ reading_at self reader }
    {
        Standing { reader, ..self }
    }

    pub fn report(self, answer: Answer, place: usize) -> Ran
        ensures { result ≡ report_of self answer place }
    {
        Ran {
            answer,
            position: self.start,
            count: self.count,
            fault_at: place,
        }
    }

    // The same with the reader n bytes earlier.
    pub fn back(self, n: usize) -> Standing
        requires { n ≤ self.reader.position }
        ensures { result ≡ reading_at self (back_reader n self.reader) }
    {
        let mut reader = self.reader;
        reader.position -= n;
        self.reading(reader)
    }

    // Whether it is one before the unread bytes, of which the first is byte `before` of all.
    #[tactic(auto, unfolding(crate::specs::Check::stands_before))]
    pub fn stands(self, before: usize) -> bool
        ensures { result ≡ stands_before before self }
    {
        let reader = self.reader;
        reader.position == 0
            && reader.validate
            && self.count <= self.start as u64
            && self.start <= before
            && (reader.inside || self.start == before)
    }
}
