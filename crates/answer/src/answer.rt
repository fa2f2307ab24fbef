// The answers of every call.
ghost use Rattle.std.specs.Prelude.{◌≡◌};
ghost use Rattle.answer.specs.Answer.{number_of, refusal};

#[derive(Clone, Copy, PartialEq, Eq)]
pub enum Answer {
    Done,
    EndOfLog,
    Cut,
    UnknownTag,
    OutOfPlace,
    WrongId,
    NoTable,
    NoIndex,
    WrongSum,
    NoRoom,
    ShortOutput,
    NotNext,
    UsedUp,
    BadState,
    BadArgument,
}

impl Answer {
    pub fn number(self) -> u8
        ensures { result ≡ number_of self }
    {
        match self {
            Answer::Done => 0,
            Answer::EndOfLog => 1,
            Answer::Cut => 2,
            Answer::UnknownTag => 3,
            Answer::OutOfPlace => 4,
            Answer::WrongId => 5,
            Answer::NoTable => 6,
            Answer::NoIndex => 7,
            Answer::WrongSum => 8,
            Answer::NoRoom => 9,
            Answer::ShortOutput => 10,
            Answer::NotNext => 11,
            Answer::UsedUp => 12,
            Answer::BadState => 13,
            Answer::BadArgument => 14,
        }
    }
}

// A refusal of reading: its answer, and where the action at fault begins.
#[derive(Clone, Copy, PartialEq, Eq)]
pub struct Refusal {
    pub answer: Answer,
    pub position: usize,
}

impl Refusal {
    // The one place that knows all the fields: whoever refuses calls it.
    pub fn new(answer: Answer, position: usize) -> Refusal
        ensures { result ≡ refusal answer position }
    {
        Refusal { answer, position }
    }
}
