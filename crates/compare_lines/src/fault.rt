// Why the program stops.
use std::fmt;

#[derive(Clone, Copy)]
pub enum Fault {
    NoDigit,
    OddDigits,
    LongLine,
    ShortCommand,
    LongCommand,
    LongBlob,
    LongImage,
    LongOutput,
    ManyNames,
    UnknownKind,
    NoInput,
    NoOutput,
}

impl Fault {
    fn words(self) -> &'static str {
        match self {
            Fault::NoDigit => "a character is no lower-case hex digit",
            Fault::OddDigits => "an odd number of digits",
            Fault::LongLine => "more than 160,010 digits",
            Fault::ShortCommand => "too short for its opcode",
            Fault::LongCommand => "too long for its opcode",
            Fault::LongBlob => "a blob of more than 80,000 bytes",
            Fault::LongImage => "an image of more than 300,000 bytes",
            Fault::LongOutput => "an output longer than its opcode takes",
            Fault::ManyNames => "more than 80 names",
            Fault::UnknownKind => "a kind above 2",
            Fault::NoInput => "standard input can't be read",
            Fault::NoOutput => "standard output can't be written",
        }
    }
}

impl fmt::Display for Fault {
    fn fmt<W: fmt::Write>(&self, f: &mut fmt::Formatter<W>) -> fmt::Result {
        f.write_str(self.words())
    }
}
