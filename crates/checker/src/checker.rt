// A log checked as it comes, in pieces of any length.
ghost use Rattle.std.specs.Prelude.{◌≡◌, true, ◌++◌, ◌+◌, ◌≤◌, ◌<◌, length};
ghost use Rattle.directory.specs.Directory.{directory_kept};
ghost use Rattle.record.specs.Next.{step_of};
ghost use Rattle.checker.specs.Check.{check_in};
ghost use Rattle.checker.specs.Checker.{unread, padded, checker_start, waits, open_kept_of, checker_kept, answered, counted, keeping, settled, piece_by, piece_taken, piece_kept, piece_of, report_now, unclosed, closing, close_kept, close_of};
ghost use Rattle.checker.specs.Inner.{Stands, Takes, Front};

use super::standing::Standing;
use super::walk::{check_all, decides, may_change, one_step};
use answer::Answer;
use directory::Directory;
use record::LogReader;
use replay::Ran;

// No action has more bytes.
pub const ROOM: usize = 1043;

const LIMIT: usize = 9223372036854775808;

// Pieces are read; or what a run reports is settled, whatever comes; or the log was closed, with that report or the one that the close gave.
#[derive(Clone, Copy)]
pub enum Stage {
    Open,
    Settled(Ran),
    Closed(Ran),
}

// `part` holds the bytes of the action that isn't whole yet.
#[derive(Clone, Copy)]
pub struct LogChecker {
    pub directory: Directory,
    pub standing: Standing,
    pub held: usize,
    pub part: [u8; ROOM],
    pub total: usize,
    pub stage: Stage,
}

// `fault_at` is where a refusal's action begins, and the bytes taken so far beside 0, 13 and 14.
#[derive(Clone, Copy)]
pub struct Checked {
    pub answer: Answer,
    pub fault_at: usize,
    pub checker: LogChecker,
}

#[derive(Clone, Copy)]
pub struct Closed {
    pub ran: Ran,
    pub checker: LogChecker,
}

// Bytes, and zeros behind them.
fn stored(bytes: &[u8]) -> [u8; ROOM]
    requires { length bytes.now ≤ 1043 }
    ensures { result ≡ padded bytes.now }
{
    let mut part = [0u8; ROOM];
    part[..bytes.len()].copy_from_slice(bytes);
    part
}

// Two stretches, one behind the other.
fn join(first: &[u8], second: &[u8]) -> [u8; ROOM]
    requires { length first.now + length second.now ≤ 1043 }
    ensures { result ≡ padded (first.now ++ second.now) }
{
    let mut part = stored(first);
    let at = first.len();
    part[at..at + second.len()].copy_from_slice(second);
    part
}

// Whether bytes are no whole action.
fn waits(d: Directory, bytes: &[u8], reader: LogReader) -> bool
    requires { directory_kept d ≡ true }
    ensures { result ≡ waits (step_of d bytes.now reader) }
{
    match reader.next_kept(d, bytes) {
        Err(x) => may_change(x.answer),
        Ok(_) => false,
    }
}

impl LogChecker {
    // 13 if the directory breaks a rule: so will every later call.
    pub fn new(directory: Directory, first: u64) -> Checked
        ensures { result ≡ checker_start directory first }
    {
        let checker = LogChecker {
            directory,
            standing: Standing::new(first),
            held: 0,
            part: [0u8; ROOM],
            total: 0,
            stage: Stage::Open,
        };
        if directory.kept() {
            checker.answered(Answer::Done)
        } else {
            checker.answered(Answer::BadState)
        }
    }

    fn answered(self, answer: Answer) -> Checked
        ensures { result ≡ answered answer self }
    {
        Checked {
            answer,
            fault_at: self.total,
            checker: self,
        }
    }

    fn counted(self, n: usize) -> LogChecker
        requires { self.total + n < 9223372036854775808 }
        ensures { result ≡ counted self n }
    {
        LogChecker {
            total: self.total + n,
            ..self
        }
    }

    // What a run reports from here on.
    fn settled(self, ran: Ran) -> Checked
        ensures { result ≡ settled self ran }
    {
        Checked {
            answer: ran.answer,
            fault_at: ran.fault_at,
            checker: LogChecker {
                stage: Stage::Settled(ran),
                ..self
            },
        }
    }

    // The bytes that weren't read, for the next piece.
    fn keep(self, s: Standing, bytes: &[u8]) -> LogChecker
        requires { length bytes.now ≤ 1043 }
        ensures { result ≡ keeping self s bytes.now }
    {
        let mut reader = s.reader;
        reader.position = 0;
        let part = stored(bytes);
        LogChecker {
            standing: s.reading(reader),
            held: bytes.len(),
            part,
            ..self
        }
    }

    fn unread(&self) -> &[u8]
        requires { self.now.held ≤ 1043 }
        ensures { result.now ≡ unread self.now }
    {
        &self.part[..self.held]
    }

    #[tactic(auto, unfolding(crate::specs::Checker::open_kept_of))]
    fn open_kept(self) -> bool
        requires { directory_kept self.directory ≡ true }
        ensures { result ≡ open_kept_of self }
    {
        self.held <= ROOM
            && self.held <= self.total
            && self.standing.stands(self.total - self.held)
            && waits(self.directory, self.unread(), self.standing.reader)
    }

    // Whether it keeps its rules.
    #[tactic(auto, unfolding(crate::specs::Checker::checker_kept))]
    pub fn kept(self) -> bool
        ensures { result ≡ checker_kept self }
    {
        self.directory.kept()
            && self.total < LIMIT
            && match self.stage {
                Stage::Open => self.open_kept(),
                Stage::Settled(ran) => decides(ran.answer),
                Stage::Closed(_) => true,
            }
    }

    // Bytes of which the first is byte `base` of all, from where the check stands in them.
    fn walked(self, bytes: &[u8], base: usize, s: Standing) -> Checked
        requires { (directory_kept self.directory ≡ true) × Stands bytes.now base s }
        ensures { result ≡ piece_by self bytes.now (check_in self.directory bytes.now base s) }
    {
        match check_all(self.directory, bytes, base, s) {
            Ok(last) => {
                let at = last.reader.position;
                self.keep(last, &bytes[at..]).answered(Answer::Done)
            }
            Err(ran) => self.settled(ran),
        }
    }

    // On behind the action that the last piece began; `front` are its bytes, as many as it can have.
    fn stepped(self, front: &[u8], bytes: &[u8]) -> Checked
        requires { Takes self bytes.now × Front self bytes.now front.now }
        ensures { result ≡ piece_taken self bytes.now }
    {
        let before = self.total - self.held;
        let after = self.counted(bytes.len());
        match one_step(self.directory, front, before, self.standing) {
            Ok(Some(s)) => after.walked(bytes, self.total, s.back(self.held)),
            Ok(None) => after.keep(self.standing, front).answered(Answer::Done),
            Err(ran) => after.settled(ran),
        }
    }

    // The unread bytes, and the piece's.
    fn taken(self, bytes: &[u8]) -> Checked
        requires { Takes self bytes.now }
        ensures { result ≡ piece_taken self bytes.now }
    {
        let old = self.unread();
        let more = (ROOM - old.len()).min(bytes.len());
        let n = old.len() + more;
        let part = join(old, &bytes[..more]);
        self.stepped(&part[..n], bytes)
    }

    // A piece for a checker that keeps its rules.
    #[tactic(auto, unfolding(crate::specs::Checker::piece_kept))]
    pub fn piece_kept(self, bytes: &[u8]) -> Checked
        requires { checker_kept self ≡ true }
        ensures { result ≡ piece_kept self bytes.now }
    {
        if LIMIT - self.total <= bytes.len() {
            return self.answered(Answer::BadArgument);
        }
        match self.stage {
            Stage::Open => self.taken(bytes),
            Stage::Settled(ran) => self.counted(bytes.len()).settled(ran),
            Stage::Closed(_) => self.answered(Answer::BadArgument),
        }
    }

    // The next bytes of the log.
    #[tactic(auto, unfolding(crate::specs::Checker::piece_of))]
    pub fn piece(self, bytes: &[u8]) -> Checked
        ensures { result ≡ piece_of self bytes.now }
    {
        if self.kept() {
            self.piece_kept(bytes)
        } else {
            self.answered(Answer::BadState)
        }
    }

    // What a run reports whose bytes end here.
    fn report(self) -> Ran
        requires { self.held ≤ self.total }
        ensures { result ≡ report_now self }
    {
        let answer = if self.standing.reader.inside {
            Answer::Cut
        } else {
            Answer::EndOfLog
        };
        self.standing.report(answer, self.total - self.held)
    }

    fn closing(self, ran: Ran) -> Closed
        ensures { result ≡ closing self ran }
    {
        Closed {
            ran,
            checker: LogChecker {
                stage: Stage::Closed(ran),
                ..self
            },
        }
    }

    fn no_run(self, answer: Answer) -> Closed
        ensures { result ≡ unclosed answer self }
    {
        Closed {
            ran: Ran {
                answer,
                position: self.total,
                count: 0,
                fault_at: self.total,
            },
            checker: self,
        }
    }

    #[tactic(auto, unfolding(crate::specs::Checker::close_kept))]
    pub fn close_kept(self) -> Closed
        requires { checker_kept self ≡ true }
        ensures { result ≡ close_kept self }
    {
        match self.stage {
            Stage::Open => self.closing(self.report()),
            Stage::Settled(ran) => self.closing(ran),
            Stage::Closed(_) => self.no_run(Answer::BadArgument),
        }
    }

    // No more pieces come.
    #[tactic(auto, unfolding(crate::specs::Checker::close_of))]
    pub fn close(self) -> Closed
        ensures { result ≡ close_of self }
    {
        if self.kept() {
            self.close_kept()
        } else {
            self.no_run(Answer::BadState)
        }
    }
}
