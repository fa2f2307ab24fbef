// What an answer means, in words.
use answer::Answer;
use std::fmt;

fn meaning(answer: Answer) -> &'static str {
    match answer {
        Answer::Done => "done",
        Answer::EndOfLog => "end of log: no further record begins",
        Answer::Cut => "the log ends inside the record",
        Answer::UnknownTag => "the record has an unknown tag",
        Answer::OutOfPlace => "the record doesn't start with a begin tag, or has a second one",
        Answer::WrongId => "the record's id isn't the expected one",
        Answer::NoTable => "the record names a table that the directory doesn't have",
        Answer::NoIndex => "the record has an index that isn't below its table's count",
        Answer::WrongSum => "the checksum of the record differs",
        Answer::NoRoom => "no room",
        Answer::ShortOutput => "the output is too short",
        Answer::NotNext => "the id isn't the next one",
        Answer::UsedUp => "record ids are used up",
        Answer::BadState => "the directory breaks a rule, or the image isn't its",
        Answer::BadArgument => "the position is beyond the log",
    }
}

// What a run, or a check, ended with: its answer, and where the record and the action at fault begin.
#[derive(Clone, Copy)]
pub struct Report {
    pub answer: Answer,
    pub position: u64,
    pub fault_at: u64,
}

impl fmt::Display for Report {
    fn fmt<W: fmt::Write>(&self, f: &mut fmt::Formatter<W>) -> fmt::Result {
        let number = self.answer.number();
        let meaning = meaning(self.answer);
        let position = self.position;
        let fault_at = self.fault_at;
        write!(
            f,
            "{number}: {meaning} (record at {position}, fault at {fault_at})"
        )
    }
}
